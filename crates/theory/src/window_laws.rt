// Windows and methods.
ghost use Rattle.definitions.specs.Promises.{OverloadIsUnboundedness, OverloadPassesEveryBound, ForwardIsTheLargest, NoLoadsNoBacklog, LineIsLawful, ForwardIsTheLeastLawful};

// A list of loads is overloaded exactly when W(t) − t has no largest value.
pub fn overload_is_unboundedness()
    ensures { OverloadIsUnboundedness }
{}

// The workload of an overloaded list passes every bound.
pub fn overload_passes_every_bound()
    ensures { OverloadPassesEveryBound }
{}

// Forward's worth is the largest of W(t) − t over all whole t.
pub fn forward_is_the_largest()
    ensures { ForwardIsTheLargest }
{}

// A port without loads has backlog 0, by Forward and by Line.
pub fn no_loads_no_backlog()
    ensures { NoLoadsNoBacklog }
{}

// Line's worth bounds W(t) − t for every whole t.
pub fn line_is_lawful()
    ensures { LineIsLawful }
{}

// Forward's worth does so too, and is at most that of any method that does.
pub fn forward_is_the_least_lawful()
    ensures { ForwardIsTheLeastLawful }
{}
