// The handlers that cover each instruction as the first one: those that begin to cover at the same one form a chain.
ghost use Rattle.std.specs.Prelude.{◌≡◌, ◌<◌, IfOk, None, length, slice_index_or};
ghost use Rattle.type_verifier.specs.bodies.Chained.{IsChain};

use class_model::Handler;
use jv_base::M;
use std::alloc::Global;

/// The handlers of a code by the instructions that they cover as the first ones, in the order of the table.
#[derive(Drop)]
pub(crate) struct Chain {
    /// For each instruction the number of the first handler that covers it as the first one.
    first: Vec<Option<usize>>,
    /// For each handler the number of the next one that covers the same instruction as the first one.
    next: Vec<Option<usize>>,
}

/// The chain of the handlers of a code with so many instructions.
pub(crate) fn chain_of(alloc: Global, handlers: &[Handler], count: usize) -> M<Chain>
    ensures { IfOk result (IsChain handlers.now count) }
{
    let mut first = vec![in alloc; None; count]?;
    let mut next = vec![in alloc; None; handlers.len()]?;
    let mut number = handlers.len();
    while number > 0 {
        number -= 1;
        let from = handlers[number].from as usize;
        if from < count {
            next[number] = first[from];
            first[from] = Some(number);
        }
    }
    Ok(Chain { first, next })
}

impl Chain {
    /// The number of the first handler that covers an instruction as the first one.
    pub(crate) fn first_at(&self, at: usize) -> Option<usize>
        requires { at < length self.now.first.items }
        ensures { result ≡ slice_index_or self.now.first.items at None }
    {
        self.first[at]
    }

    /// The number of the next handler that covers the same instruction as the first one.
    pub(crate) fn next_of(&self, number: usize) -> Option<usize>
        requires { number < length self.now.next.items }
        ensures { result ≡ slice_index_or self.now.next.items number None }
    {
        self.next[number]
    }
}
