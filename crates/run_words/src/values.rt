ghost use Rattle.std.specs.Prelude.{◌≡◌, ◌==◌, None, Some, if◌then◌else◌, length};

use crate::name::Name;

/// The values that were found so far, each at the place of its option.
#[derive(Clone, Copy)]
pub(crate) struct Values<'a> {
    places: [Option<&'a str>; Name::COUNT],
    ghost all: { length places ≡ 8 },
}

impl<'a> Values<'a> {
    ghost use Rattle.std.specs.Option.{option_copied};
    ghost use Rattle.run_words.specs.declared.name.Name.{Name};
    ghost use Rattle.run_words.specs.Options.{place};
    ghost use Rattle.run_words.specs.Values.{found_in};

    pub(crate) fn new() -> Values<'a>
        ensures { (name : Name) → found_in result name ≡ None }
    {
        Values {
            places: [None; Name::COUNT],
        }
    }

    pub(crate) fn get(&self, name: Name) -> Option<&'a str>
        ensures { option_copied result ≡ found_in self.now name }
    {
        self.places[name.place()]
    }

    pub(crate) fn put(&mut self, name: Name, value: &'a str)
        ensures { (other : Name) → found_in self.new other
            ≡ (if place name == place other then Some value.now else found_in self.old other) }
    {
        self.places[name.place()] = Some(value);
    }
}
