// What is known of a code when its frames are read.
use crate::starts::Starts;
use class_model::{Frame, Op};
use jv_base::Items;
use known_pool::KnownPool;

/// What is known of a code when the contents of its StackMapTable are read (JVMS 4.7.3, 4.7.4).
#[derive(Drop)]
pub struct FrameReader<'a> {
    /// The constants that the rows name.
    pub pool: &'a KnownPool,
    /// The offsets of the instructions.
    pub starts: &'a Starts<'a>,
    pub ops: &'a Items<Op>,
    pub max_stack: u16,
    pub max_locals: u16,
    /// The frame before the first instruction, with Tops at the end of its locals where the method's last parameters
    /// are floats or doubles.
    pub first: &'a Frame,
}
