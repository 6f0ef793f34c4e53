//! A command: a word, and arguments that are of the forms that the word takes.
ghost use Rattle.std.specs.Prelude.{◌≡◌};
ghost use Rattle.script_text.specs.Table.{forms_of};

use crate::argument::Arg;
use crate::form::Form;
use crate::word::Word;
use smallvec::SmallVec;
use std::alloc::Global;
use std::marker::Model;

/// A command. Up to eight arguments lie in the value itself.
#[derive(Drop)]
pub struct Command {
    word: Word,
    forms: &'static [Form],
    args: SmallVec<Arg, 8, Global>,
}

impl Model for Command {
    ghost use Rattle.std.specs.Prelude.{◌≡◌};
    ghost use Rattle.script_text.specs.Said.{Said};
    ghost use Rattle.script_text.specs.Table.{forms_of};

    ghost Value = { Said };

    ghost view = { λ c. record { word = c.word; args = c.args.items } };

    ghost invariant = { λ c. c.forms.now ≡ forms_of c.word };
}

impl Command {
    pub(crate) fn new(word: Word, forms: &'static [Form], args: SmallVec<Arg, 8, Global>) -> Self
        requires { forms.now ≡ forms_of word }
        ensures word { result.word ≡ word }
        ensures args { result.args ≡ args.items }
    {
        Command { word, forms, args }
    }

    /// The command word.
    pub fn word(&self) -> Word
        ensures { result ≡ self.now.word }
    {
        self.word
    }

    /// What the word asks of each argument, in order.
    pub fn forms(&self) -> &'static [Form]
        ensures { result.now ≡ forms_of self.now.word }
    {
        self.forms
    }

    /// The arguments, in the order of the line.
    pub fn args(&self) -> &[Arg]
        ensures { result.now ≡ self.now.args }
    {
        self.args.as_slice()
    }

    /// The arguments, which outlive the command.
    pub fn into_args(self) -> SmallVec<Arg, 8, Global>
        ensures { result.items ≡ self.args }
    {
        self.args
    }
}
