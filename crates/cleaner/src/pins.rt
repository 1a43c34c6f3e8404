ghost use Rattle.std.specs.Prelude.{◌≡◌, ℕ, Bool, List};
ghost use Rattle.cleaner.specs.Pins.{covers, is_pinned};

use std::marker::Model;
use std::snapshot::Snapshot;
use vfs_names::VPath;

/// A test of paths, which a [`PinRule`] keeps.
pub trait PinTest {
    ghost answer: { Self → List ℕ → Bool };

    fn holds(&self, path: &str) -> bool
        ensures { result ≡ answer self.now path.now };
}

/// The pin holds the path in the cache: it is the path, or the path begins with it and `/`. Takes no memory.
pub fn covers(pin: &VPath, path: &str) -> bool
    ensures { result ≡ covers pin.now path.now }
{
    let pin = pin.as_str().as_bytes();
    let path = path.as_bytes();
    path.starts_with(pin)
        && match &path[pin.len()..] {
            [] => true,
            [byte, ..] => *byte == b'/',
        }
}

/// The test that asks each pin of a list in turn.
#[derive(Clone, Copy, Drop)]
pub struct ListedPins<'a>(pub &'a [VPath]);

impl<'a> PinTest for ListedPins<'a> {
    ghost answer = { λ pins path. is_pinned pins.0.now path };

    fn holds(&self, path: &str) -> bool {
        self.0.iter().any(|pin| covers(pin, path))
    }
}

/// A test that answers which paths are pinned, beside the fact that it does. Contracts see the pins.
#[derive(Drop)]
pub struct PinRule<'a, T: PinTest> {
    test: T,
    pins: Snapshot<&'a [VPath]>,
}

impl<'a, T: PinTest> Model for PinRule<'a, T> {
    ghost use Rattle.std.specs.Prelude.{◌≡◌, ℕ, Bool, List};
    ghost use Rattle.cleaner.specs.Pins.{is_pinned};

    ghost Value = { List (List ℕ) };

    ghost view = { λ rule. rule.pins.value.now };

    ghost invariant = { λ rule. (path : List ℕ) → T.answer rule.test path ≡ is_pinned rule.pins.value.now path };
}

impl<'a, T: PinTest> PinRule<'a, T> {
    /// Takes no memory: of the pins only a snapshot of no bytes is kept.
    pub fn new(pins: &'a [VPath], test: T) -> PinRule<'a, T>
        requires { (path : List ℕ) → T.answer test path ≡ is_pinned pins.now path }
        ensures { result ≡ pins.now }
    {
        PinRule {
            test,
            pins: Snapshot::of(&pins),
        }
    }

    /// The path is pinned. Takes no memory.
    pub fn pinned(&self, path: &VPath) -> bool
        ensures { result ≡ is_pinned self.now path.now }
    {
        self.test.holds(path.as_str())
    }
}
