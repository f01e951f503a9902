// Working out figures.
ghost use Rattle.std.specs.Prelude.{◌≡◌, length};
ghost use Rattle.definitions.specs.Methods.{Lawful};
ghost use Rattle.definitions.specs.Calls.{work_out};
ghost use Rattle.book.specs.Books.{WorksBook, answer_of, Adds};

use crate::books::Book;
use definitions::loads::Load;
use definitions::refusals::Refusal;
use methods::Method;
use working_out::working::work_out_registers;

impl<'a> Book<'a> {
    // Works out all figures by the method, over a load table that has a place for every hop. A refusal leaves no
    // figures, all of them zero.
    #[tactic(auto, using(crate::proofs::WorkedBook::made_working))]
    pub fn work_out<M: Method>(&mut self, method: &M, loads: &mut [Load]) -> Result<(), Refusal>
        ensures outcome { WorksBook (M.Method.worth method.now) (length loads.old) self.old self.new result }
        ensures load_places { length loads.new ≡ length loads.old }
        ensures run { (law : Lawful (M.Method.worth method.now)) → Adds (work_out (record { worth = M.Method.worth method.now; lawful = law }) (length loads.old)) (answer_of result) self.old self.new }
    {
        let links = &self.links;
        let worked = work_out_registers(
            &mut self.ports,
            &links.view(),
            &mut self.hops,
            method,
            loads,
        );
        self.standing = worked.is_ok();
        worked
    }
}
