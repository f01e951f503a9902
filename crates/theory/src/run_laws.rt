// Lists of calls.
ghost use Rattle.definitions.specs.Promises.{EveryRunIsSound, EveryCallComesToOne, StandingFiguresHold};

// Every list of calls leaves well-formed records within the tables, and only settled figures stand.
pub fn every_run_is_sound()
    ensures { EveryRunIsSound }
{}

// Every call has exactly one answer and leaves exactly one state.
pub fn every_call_comes_to_one()
    ensures { EveryCallComesToOne }
{}

// After any list of calls, while figures stand, no traffic passes a figure, and Forward is never larger.
pub fn standing_figures_hold()
    ensures { StandingFiguresHold }
{}
