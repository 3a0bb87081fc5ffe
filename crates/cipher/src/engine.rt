// The engines.
#[derive(Clone, Copy, Debug, PartialEq, Eq)]
pub enum Engine {
    // The S-box looked up in two byte tables.
    Tables,
    // The S-box worked out, with no table indexed by data.
    Arithmetic,
}

// Engines by number. A number that names no other engine names the byte tables.
impl From<u8> for Engine {
    ghost use Rattle.std.specs.Prelude.{◌≡◌};
    ghost use Rattle.cipher.specs.Numbers.{engine_of};

    ghost from_gives = { λ number engine. engine ≡ engine_of number };

    fn from(number: u8) -> Self {
        match number {
            1 => Engine::Arithmetic,
            _ => Engine::Tables,
        }
    }
}
