//! What is proved of the editor's server, as contracts of functions that do nothing.

ghost use Rattle.ide.specs.Runs.{EachRunIsTheCores};

/// In each run of the editor's server there is one of the core: over the contents, but for some
/// that the editor's server answered itself, the answers of the core are what is sent, without
/// what the editor's server adds. So what holds in every run of the core holds for its users too.
pub fn each_run_is_the_cores()
    ensures { EachRunIsTheCores }
{}
