// Traffic.
ghost use Rattle.definitions.specs.Promises.{NoFrameEverLeavesLater, NoPortEverHoldsMore};

// Every frame of every traffic leaves each of its ports no later than the departure there, nor than the delay of its link.
pub fn no_frame_leaves_later()
    ensures { NoFrameEverLeavesLater }
{}

// At every moment a port has no more unsent time than its backlog, and no more frames than its depth.
pub fn no_port_holds_more()
    ensures { NoPortEverHoldsMore }
{}
