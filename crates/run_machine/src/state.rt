// What the machine holds between two steps (JVMS 2.5, 2.6).
use crate::{Marks, Pile};
use jv_base::{Items, Name};
use run_heap::{Key, World};
use run_steps::Body;
use run_values::Value;

/// A frame: a method, and where it stands.
#[derive(Drop)]
pub struct Frame {
    pub method: Key,
    pub body: Body,
}

/// What waits below the present activity.
#[derive(Drop)]
pub enum Wait {
    /// A frame, for the return of the method that it called.
    AfterCall(Frame),
    /// A frame at an instruction that a class has to be initialised for, and that is done afterwards.
    AfterInit(Frame),
    /// A class whose initialisation has begun, for one that comes first, with those that come then.
    AfterFirst(Name, Pile<Name>),
    /// A class, for its initialisation method.
    AfterClinit(Name),
    /// The entry with its arguments, for its class.
    ToEntry(Key, Items<Value>),
}

/// The present activity.
#[derive(Drop)]
pub enum Control {
    Runs(Frame),
    /// The object with a number is thrown.
    Unwinds(usize),
    /// A class is to be initialised.
    Initialises(Name),
    /// A class whose initialisation has begun, and before which these are to be initialised.
    Prepares(Name, Pile<Name>),
    /// The initialisation of a class has come to its end.
    Completes(Name),
    /// The entry has returned.
    Returned(Option<Value>),
    /// The entry has thrown the object with a number.
    Threw(usize),
    /// An operand was missing or of another kind.
    Wrong,
}

/// The state without what is done: the world, how far classes are, and what waits, the uppermost first.
#[derive(Drop)]
pub struct Rest {
    pub world: World,
    pub marks: Marks,
    pub waits: Pile<Wait>,
}

/// All of it.
#[derive(Drop)]
pub struct State {
    pub(crate) rest: Rest,
    pub(crate) control: Control,
}

/// What a run has come to.
#[derive(Clone, Copy)]
pub enum Status<'a> {
    Running,
    /// The entry has returned.
    Returned(Option<&'a Value>),
    /// It has thrown the object with a number.
    Threw(usize),
    /// An operand was missing or of another kind.
    Wrong,
}
