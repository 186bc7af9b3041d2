// Reading bytes from left to right.
ghost use Rattle.std.specs.Prelude.{◌≡◌, ◌==◌, ◌<◌, ◌≤◌, length, IfOk};
ghost use Rattle.jv_base.specs.Place.{Place, Moves, MovesTo, number_at, taken_at, part_at, start};
ghost use Rattle.jv_base.specs.declared.outcome.Or.TheVariants.{Fault};
ghost use Rattle.std.specs.Int.{w8, w16, w32};

use crate::Or;
use std::marker::Model;

/// Too few bytes are left. The number is how many there are in all.
#[derive(Clone, Copy, Debug, PartialEq, Eq)]
pub struct End(pub u32);

impl<X: From<End>> From<End> for Or<X> {
    ghost from_gives = { λ e o. (x : X) × X.from_gives e x × (o ≡ Fault x) };

    fn from(end: End) -> Self {
        Or::Fault(X::from(end))
    }
}

/// A place in bytes, which are read from there on. Numbers are big-endian (JVMS 4).
///
/// Each call answers the value of the next bytes and moves past them. `End` comes exactly where too
/// few bytes are left, and then the cursor is as it was. No call takes memory.
#[derive(Drop)]
pub struct Cursor<'a> {
    bytes: &'a [u8],
    at: usize,
}

impl<'a> Model for Cursor<'a> {
    ghost use Rattle.std.specs.Prelude.{◌≤◌, ◌<◌, length};
    ghost use Rattle.jv_base.specs.Place.{Place};

    ghost Value = { Place };

    ghost view = { λ c. record { bytes = c.bytes.now; at = c.at } };

    // So no caller has to bound a place again.
    ghost invariant = { λ c. (c.at ≤ length c.bytes.now) × (length c.bytes.now < 4294967295) };
}

impl<'a> Cursor<'a> {
    /// Stands before the first byte.
    pub fn new(bytes: &'a [u8]) -> Self
        requires { length bytes.now < 4294967295 }
        ensures { result ≡ start bytes.now }
    {
        Cursor { bytes, at: 0 }
    }

    /// How many bytes stand before it.
    pub fn place(&self) -> u32
        ensures { result ≡ self.now.at }
    {
        self.at as u32
    }

    /// Whether no byte is left.
    pub fn is_at_end(&self) -> bool
        ensures { result ≡ (self.now.at == length self.now.bytes) }
    {
        self.at == self.bytes.len()
    }

    /// The next byte.
    pub fn u1(&mut self) -> Result<u8, End>
        ensures { Moves result self.old self.new (number_at w8 self.old) }
    {
        let bytes = self.front(1)?;
        Ok(bytes[0])
    }

    /// The number in the next two bytes.
    pub fn u2(&mut self) -> Result<u16, End>
        ensures { Moves result self.old self.new (number_at w16 self.old) }
    {
        let bytes = self.front(2)?;
        Ok(u16::from_be_bytes([bytes[0], bytes[1]]))
    }

    /// The number in the next four bytes.
    pub fn u4(&mut self) -> Result<u32, End>
        ensures { Moves result self.old self.new (number_at w32 self.old) }
    {
        let bytes = self.front(4)?;
        Ok(u32::from_be_bytes([bytes[0], bytes[1], bytes[2], bytes[3]]))
    }

    /// The next `n` bytes.
    pub fn take(&mut self, n: u32) -> Result<&'a [u8], End>
        ensures taken { MovesTo (λ x. x.now) result self.old self.new (taken_at n self.old) }
        ensures length { IfOk result (λ x. length x.now ≡ n) }
        ensures below { IfOk result (λ x. length x.now < 4294967295) }
    {
        self.front(n as usize)
    }

    /// A cursor on the next `n` bytes, which ends with them; its places are those of the whole. This
    /// one moves past them.
    pub fn part(&mut self, n: u32) -> Result<Cursor<'a>, End>
        ensures { Moves result self.old self.new (part_at n self.old) }
    {
        let n = n as usize;
        if self.bytes.len() - self.at < n {
            return Err(End(self.bytes.len() as u32));
        }
        let at = self.at;
        self.at += n;
        Ok(Cursor {
            bytes: &self.bytes[..self.at],
            at,
        })
    }

    fn front(&mut self, n: usize) -> Result<&'a [u8], End>
        ensures taken { MovesTo (λ x. x.now) result self.old self.new (taken_at n self.old) }
        ensures length { IfOk result (λ x. length x.now ≡ n) }
        ensures below { IfOk result (λ x. length x.now < 4294967295) }
    {
        if self.bytes.len() - self.at < n {
            return Err(End(self.bytes.len() as u32));
        }
        let taken = &self.bytes[self.at..self.at + n];
        self.at += n;
        Ok(taken)
    }
}
