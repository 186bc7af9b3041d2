// The words that an instruction moves together (JVMS 2.11.1, 6.5).
ghost use Rattle.std.specs.Prelude.{◌≡◌, IfOk};

use crate::Value;
use jv_base::M;

/// At most two words: none, a value of one word or of two, or two values of one word.
#[derive(Drop)]
pub(crate) enum Words {
    NoWord,
    OneValue(Value),
    TwoValues { upper: Value, lower: Value },
}

impl Words {
    /// The same once more.
    pub(crate) fn copied(&self) -> M<Words>
        ensures { IfOk result (λ words. words ≡ self.now) }
    {
        match self {
            Words::NoWord => Ok(Words::NoWord),
            Words::OneValue(value) => Ok(Words::OneValue(value.clone()?)),
            Words::TwoValues { upper, lower } => copied_pair(upper, lower),
        }
    }
}

fn copied_pair(upper: &Value, lower: &Value) -> M<Words>
    ensures { IfOk result (λ words. words ≡ Words.TwoValues upper.now lower.now) }
{
    let upper = upper.clone()?;
    let lower = lower.clone()?;
    Ok(Words::TwoValues { upper, lower })
}
