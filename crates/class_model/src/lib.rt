//! The symbolic class: a class file without pool indices and offsets, and the definitions that say
//! which bytes spell it (JVMS 4).
#![tactic(auto)]

mod class;
mod code;
mod constant;
mod frame;
mod frame_builder;
mod frame_list;
mod limit;
mod op;
pub mod opcode;
mod pool;
mod rows;
mod same;
mod type_lists;

pub use class::{Class, Constant, Field, LeftKind, LeftOut, Method};
pub use code::{Code, Handler, Ins};
pub use constant::PoolConstant;
pub use frame::{Frame, FrameAt, VType};
pub use frame_builder::FrameBuilder;
pub use frame_list::Frames;
pub use limit::WriteLimit;
pub use op::{ArithOp, Case, Cond, ConvOp, Elem, Kind, LogicOp, MemberRef, Num, Op, ShiftOp};
pub use pool::{Entry, Pool};
pub use rows::computed_rows;
pub use same::same_op;
