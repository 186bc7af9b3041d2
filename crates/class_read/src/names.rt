// Whether units are those of a name.
ghost use Rattle.std.specs.Prelude.{◌≡◌};
ghost use Rattle.jv_base.specs.Names.{is_text};

/// Whether UTF-16 units are these ASCII characters.
pub fn is_named(units: &[u16], name: &[u8]) -> bool
    ensures { result ≡ is_text units.now name.now }
{
    if units.len() != name.len() {
        return false;
    }
    for index in 0..units.len() {
        if units[index] != u16::from(name[index]) {
            return false;
        }
    }
    true
}
