// The sample network.
ghost use Rattle.definitions.specs.Promises.{SampleFigures, SampleTraffic};

// The sample's text is read and written, and its figures by Forward and by Line are those of the documents.
pub fn sample_comes_to_its_figures()
    ensures { SampleFigures }
{}

// Traffic exists: two frames over the sample, with the unsent time of port 3 at its backlog by Forward.
pub fn traffic_exists()
    ensures { SampleTraffic }
{}
