// Runs (JVMS 2.11).
ghost use Rattle.std.specs.Prelude.{◌≡◌, [], IfOk, OnOk, map, slice_get};
ghost use Rattle.std.specs.Option.{option_map_or};
ghost use Rattle.jvm_model.specs.Fields.{blank};
ghost use Rattle.jvm_model.specs.Heap.{class_of};
ghost use Rattle.jvm_model.specs.Program.{Shape, View};
ghost use Rattle.jvm_model.specs.State.{status};
ghost use Rattle.jvm_model.specs.Step.{first_init, first_world, out, run, start, stream};
ghost use Rattle.jvm_model.specs.Value.{Ref, set_key};
ghost use Rattle.run_heap.specs.Held.{held};
ghost use Rattle.run_heap.specs.Worlds.{object_of, world_of};
ghost use Rattle.run_machine.specs.bodies.Ended.{has_ended};
ghost use Rattle.run_machine.specs.States.{control_of, program, state_at, state_of, status_of};

use crate::stepping::advance;
use crate::{Control, Marks, Pile, Rest, State, Status, Wait};
use jv_base::{Items, M, Text};
use run_heap::{Fields, Instance, Key, Object, Shapes, Statics, World, class_of};
use run_values::Value;
use std::alloc::Global;
use std::mem;

impl State {
    /// The state that begins with the initialisation of the class of an entry. The objects of the heap are those after
    /// the stream, which is object 0.
    pub fn start(alloc: Global, entry: Key, heap: Vec<Object>, arguments: Items<Value>) -> M<State>
        ensures { IfOk result (λ s. (v : View) → state_of v.shape s
            ≡ start v entry (map object_of heap.items) arguments) }
    {
        let class = entry.class().clone()?;
        let world = first_world(alloc, heap)?;
        let mut waits = Pile::new(alloc);
        waits.push(Wait::ToEntry(entry, arguments))?;
        Ok(State {
            rest: Rest {
                world,
                marks: Marks::new(alloc),
                waits,
            },
            control: Control::Initialises(class),
        })
    }

    /// What the run has come to.
    pub fn status(&self) -> Status<'_>
        ensures { (p : Shape) → status_of result ≡ status (state_of p self.now) }
    {
        match &self.control {
            Control::Returned(value) => Status::Returned(value.as_ref()),
            Control::Threw(number) => Status::Threw(*number),
            Control::Wrong => Status::Wrong,
            _ => Status::Running,
        }
    }

    /// The class of an object of the heap, in internal form; that of an array counts as Object. Of a number without an
    /// object it is empty.
    pub fn class_of(&self, number: usize) -> &str
        ensures { (p : Shape) → result.now
            ≡ option_map_or class_of (slice_get (state_of p self.now).world.heap number) [] }
    {
        match self.rest.world.heap.get(number) {
            Some(object) => class_of(object),
            None => "",
        }
    }

    /// What was printed, in UTF-16.
    pub fn printed(&self) -> &[u16]
        ensures { (p : Shape) → result.now ≡ (state_of p self.now).world.printed }
    {
        self.rest.world.printed.as_slice()
    }
}

/// The world as it is at first, with these objects after the stream.
fn first_world(alloc: Global, heap: Vec<Object>) -> M<World>
    ensures { IfOk result (λ world. (p : Shape) → world_of (first_init p) world
        ≡ first_world p (map object_of heap.items)) }
{
    let mut objects = Vec::with_capacity(alloc, heap.len())?;
    objects.push(stream(alloc)?)?;
    let mut heap = heap;
    objects.append(&mut heap)?;
    Ok(World {
        heap: objects,
        statics: first_statics(alloc)?,
        printed: Vec::new(alloc),
    })
}

/// Object 0.
fn stream(alloc: Global) -> M<Object>
    ensures { IfOk result (λ object. object_of object ≡ stream) }
{
    Ok(Object::Instance(Instance {
        class: Text::from_str(alloc, "java/io/PrintStream")?,
        fields: Fields::new(alloc),
        message: Value::null(),
        cause: Value::null(),
    }))
}

/// `System.out` refers to the stream.
fn first_statics(alloc: Global) -> M<Statics>
    ensures { IfOk result (λ statics. held statics ≡ set_key blank out (Ref 0)) }
{
    let class = Text::from_str(alloc, "java/lang/System")?;
    let name = Text::from_str(alloc, "out")?;
    let descriptor = Text::from_str(alloc, "Ljava/io/PrintStream;")?;
    let mut statics = Statics::new(alloc);
    statics.set(&Key::new(class, name, descriptor), Value::reference(0))?;
    Ok(statics)
}

/// So many steps. A run that has ended stays as it is.
pub fn run<S: Shapes>(alloc: Global, shapes: &S, state: &mut State, steps: u64) -> M<()>
    ensures { OnOk result (state_of (S.shape shapes.now) state.new
        ≡ run (program (S.shape shapes.now) (S.code_of shapes.now)) (state_of (S.shape shapes.now) state.old) steps) }
{
    let control = mem::replace(&mut state.control, Control::Wrong);
    state.control = run_rest(alloc, shapes, &mut state.rest, control, steps)?;
    Ok(())
}

fn has_ended(control: &Control) -> bool
    ensures { result ≡ has_ended (control_of control.now) }
{
    matches!(
        control,
        Control::Returned(_) | Control::Threw(_) | Control::Wrong
    )
}

fn run_rest<S: Shapes>(
    alloc: Global,
    shapes: &S,
    rest: &mut Rest,
    control: Control,
    steps: u64,
) -> M<Control>
    ensures { IfOk result (λ c. state_at (S.shape shapes.now) rest.new c
        ≡ run (program (S.shape shapes.now) (S.code_of shapes.now))
        (state_at (S.shape shapes.now) rest.old control) steps) }
{
    let mut control = control;
    let mut left = steps;
    while left > 0 {
        if has_ended(&control) {
            return Ok(control);
        }
        let ran = advance(alloc, shapes, rest, control, left)?;
        control = ran.control;
        left = ran.left;
    }
    Ok(control)
}
