//! The law of the pipe's machine, over every list of permitted events.
//!
//! It is the contract of a function that does nothing: call it where the law is needed.
ghost use Rattle.rv_pipe.specs.MachineLaws.{EachOnceInOrder};

/// The indices in the queue and those that workers took are the ones below the number pushed, each once.
/// Those in the queue rise, and there are never more of them than the queue has room for.
pub fn each_once_in_order()
    ensures { EachOnceInOrder }
{}
