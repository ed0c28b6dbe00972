//! What is known of the group that a place is in.
ghost use Rattle.std.specs.Prelude.{◌≡◌, ◌*◌};
ghost use Rattle.kube_server_patterns.specs.Groups as spec;

use crate::lexeme::{Flags, Lexeme, Repetition};
use crate::refusal::{Limit, Refusal};

/// What stands before a place.
#[derive(Clone, Copy)]
pub(crate) enum Before {
    /// Nothing that could be repeated.
    Nothing,
    /// What can be repeated.
    Item,
    /// An operator of repetition.
    Repetition,
    /// An operator of repetition, and then what matches nothing.
    Settings,
}

/// The largest product of counts inside one another.
const MOST_COPIES: u32 = 1000;

/// A group that isn't closed yet.
#[derive(Clone, Copy)]
pub(crate) struct Group {
    pub(crate) flags: Flags,
    pub(crate) before: Before,
    /// The largest product of counts inside one another in the last item.
    pub(crate) last: u32,
    /// The same of all items.
    pub(crate) most: u32,
}

/// How many copies of an item a repetition makes, as far as RE2 limits them.
fn copies(repetition: Repetition) -> u32
    ensures { result ≡ spec.copies repetition }
{
    match repetition.most {
        Some(most) => most,
        None => repetition.least.max(1),
    }
}

impl Group {
    /// A group at its beginning.
    pub(crate) fn new(flags: Flags) -> Group
        ensures { result ≡ spec.new_group flags }
    {
        Group {
            flags,
            before: Before::Nothing,
            last: 1,
            most: 1,
        }
    }

    /// The group after an item in which counts have this product.
    pub(crate) fn with_item(self, product: u32) -> Group
        ensures { result ≡ spec.with_item self product }
    {
        Group {
            before: Before::Item,
            last: product,
            most: self.most.max(product),
            ..self
        }
    }

    /// The group after a bar.
    fn with_bar(self) -> Group
        ensures { result ≡ spec.with_bar self }
    {
        Group {
            before: Before::Nothing,
            last: 1,
            ..self
        }
    }

    /// The group after what matches nothing and can't be repeated.
    fn with_settings(self, flags: Flags) -> Group
        ensures { result ≡ spec.with_settings self flags }
    {
        match self.before {
            Before::Repetition => Group {
                flags,
                before: Before::Settings,
                ..self
            },
            _ => Group { flags, ..self },
        }
    }

    /// The group after the last item is repeated.
    fn with_copies(self, repetition: Repetition) -> Result<Group, Refusal>
        ensures { result ≡ spec.with_product self (spec.copies repetition * self.last) }
    {
        let product = u64::from(copies(repetition)) * u64::from(self.last);
        if product > u64::from(MOST_COPIES) {
            return Err(Refusal::Invalid);
        }
        let product = product as u32;
        Ok(Group {
            before: Before::Repetition,
            last: product,
            most: self.most.max(product),
            ..self
        })
    }

    /// The group after an operator of repetition.
    fn with_repetition(self, repetition: Repetition) -> Result<Group, Refusal>
        ensures { result ≡ spec.with_repetition self repetition }
    {
        match self.before {
            Before::Item => self.with_copies(repetition),
            Before::Settings => Err(Refusal::Unsupported(Limit::RepeatedRepetition)),
            _ => Err(Refusal::Invalid),
        }
    }

    /// The group after a lexeme that neither begins nor ends a group.
    pub(crate) fn with(self, lexeme: Lexeme) -> Result<Group, Refusal>
        ensures { result ≡ spec.with_lexeme self lexeme }
    {
        match lexeme {
            Lexeme::Repeat(repetition) => self.with_repetition(repetition),
            Lexeme::Or => Ok(self.with_bar()),
            Lexeme::Set(flags) => Ok(self.with_settings(flags)),
            Lexeme::Quote | Lexeme::Unquote => Ok(self.with_settings(self.flags)),
            _ => Ok(self.with_item(1)),
        }
    }
}
