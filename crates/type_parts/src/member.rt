//! The members of the structs and unions of a table: fields and alternatives.

ghost use Rattle.std.specs.Prelude.{◌≡◌, ℕ};
ghost use Rattle.pickle_types.specs.Table.{name_of};
ghost use Rattle.type_parts.specs.Members.{Member as NamedNode, field_member, part_member, place_of};

use pickle_types::view::{Field, Name, Part};

/// A field or an alternative.
pub trait Member {
    ghost member: { Self → NamedNode ℕ };

    /// Its name, if it has one.
    fn name(&self) -> &Option<Name>
        ensures { name_of result.now ≡ (member self.now).name };

    /// The node of its type.
    fn node(&self) -> usize
        ensures { result ≡ (member self.now).type };
}

impl Member for Field {
    ghost member = { field_member };

    fn name(&self) -> &Option<Name> {
        &self.name
    }

    fn node(&self) -> usize {
        self.node
    }
}

impl Member for Part {
    ghost member = { part_member };

    fn name(&self) -> &Option<Name> {
        &self.name
    }

    fn node(&self) -> usize {
        self.node
    }
}

/// Where the members of a type are in its values.
#[derive(Clone, Copy)]
pub enum Standing {
    /// Each at its own place, as fields do.
    Apart,
    /// One of them alone, at the first place, as alternatives do.
    Together,
}

impl Standing {
    /// The place in values of the member of a number.
    pub fn place(self, number: usize) -> usize
        ensures { result ≡ place_of self number }
    {
        match self {
            Standing::Apart => number,
            Standing::Together => 0,
        }
    }
}
