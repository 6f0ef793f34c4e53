//! A command on objects, by its word.
ghost use Rattle.std.specs.Prelude.{◌≡◌, List, [], ◌∷◌, length};
ghost use Rattle.script_text.specs.declared.argument.Arg.TheVariants as args;
ghost use Rattle.script_text.specs.declared.word.Word.TheVariants as commands;
ghost use Rattle.script_text.specs.Table.{forms_of, may_lack_memory, IsWhole};
ghost use Rattle.reply_text.specs.Outcome.{IsQuiet};
ghost use Rattle.reply_text.specs.Text.{IsNamed};
ghost use Rattle.object_store.specs.Commands.{objects_done};
ghost use Rattle.object_store.specs.Leads.{Leads};
ghost use Rattle.object_store.specs.Met.{AreMet};

use crate::entrance::{End, Side};
use crate::kind::ObjectKind;
use crate::near::{Neighbour, Sought};
use crate::objects::Objects;
use crate::part::{Reading, Writing};
use reply_text::Reply;
use script_text::{Arg, ObjectWord};

impl Objects {
    /// A command on objects that nothing stands in the way of: it does what its row says, or is
    /// answered by want of memory, where it may be, and all is then as it was.
    pub fn apply(&mut self, word: ObjectWord, args: &[Arg]) -> Reply
        requires whole { IsWhole (record { word = commands.Object word; args = args.now }) }
        requires met { AreMet self.old (forms_of (commands.Object word)) args.now }
        ensures does { Leads (may_lack_memory (commands.Object word))
            (objects_done word args.now self.old) self.old result self.new }
        ensures named { IsNamed result }
        ensures quiet { IsQuiet (may_lack_memory (commands.Object word))
            self.old result self.new }
    {
        match args.len() {
            1 => self.apply_to_one(word, args),
            2 => self.apply_to_two(word, args),
            3 => self.apply_to_three(word, args),
            // A whole command has so many arguments.
            _ => unreachable!(),
        }
    }

    /// A command with one argument.
    fn apply_to_one(&mut self, word: ObjectWord, args: &[Arg]) -> Reply
        requires whole { IsWhole (record { word = commands.Object word; args = args.now }) }
        requires met { AreMet self.old (forms_of (commands.Object word)) args.now }
        requires length { length args.now ≡ 1 }
        ensures does { Leads (may_lack_memory (commands.Object word))
            (objects_done word args.now self.old) self.old result self.new }
        ensures named { IsNamed result }
        ensures quiet { IsQuiet (may_lack_memory (commands.Object word))
            self.old result self.new }
    {
        match args {
            [Arg::Name(name)] => self.apply_to(word, name.as_slice()),
            [Arg::Cell(number)] => self.apply_at(word, *number),
            _ => unreachable!(),
        }
    }

    /// A command with two arguments.
    fn apply_to_two(&mut self, word: ObjectWord, args: &[Arg]) -> Reply
        requires whole { IsWhole (record { word = commands.Object word; args = args.now }) }
        requires met { AreMet self.old (forms_of (commands.Object word)) args.now }
        requires length { length args.now ≡ 2 }
        ensures does { Leads (may_lack_memory (commands.Object word))
            (objects_done word args.now self.old) self.old result self.new }
        ensures named { IsNamed result }
        ensures quiet { IsQuiet (may_lack_memory (commands.Object word))
            self.old result self.new }
    {
        match args {
            [Arg::Name(name), Arg::Num(value)] => self.apply_with(word, name.as_slice(), *value),
            [Arg::Cell(number), Arg::Num(value)] => self.apply_beside(word, *number, *value),
            _ => unreachable!(),
        }
    }

    /// A command with three arguments.
    fn apply_to_three(&mut self, word: ObjectWord, args: &[Arg]) -> Reply
        requires whole { IsWhole (record { word = commands.Object word; args = args.now }) }
        requires met { AreMet self.old (forms_of (commands.Object word)) args.now }
        requires length { length args.now ≡ 3 }
        ensures does { Leads (may_lack_memory (commands.Object word))
            (objects_done word args.now self.old) self.old result self.new }
        ensures named { IsNamed result }
        ensures quiet { IsQuiet (may_lack_memory (commands.Object word))
            self.old result self.new }
    {
        match args {
            [Arg::Name(name), Arg::Num(first), Arg::Num(second)] => {
                self.apply_with_two(word, name.as_slice(), *first, *second)
            }
            _ => unreachable!(),
        }
    }

    /// A command that names an object alone.
    fn apply_to(&mut self, word: ObjectWord, name: &[u8]) -> Reply
        requires whole { IsWhole (record {
          word = commands.Object word;
          args = args.Name name.now ∷ [];
        }) }
        requires met { AreMet self.old (forms_of (commands.Object word)) (args.Name name.now ∷ []) }
        ensures does { Leads (may_lack_memory (commands.Object word))
            (objects_done word (args.Name name.now ∷ []) self.old) self.old result self.new }
        ensures named { IsNamed result }
        ensures quiet { IsQuiet (may_lack_memory (commands.Object word))
            self.old result self.new }
    {
        match word {
            ObjectWord::MakeList => self.make(ObjectKind::List, name),
            ObjectWord::MakeDict => self.make(ObjectKind::Dict, name),
            ObjectWord::MakeQueue => self.make(ObjectKind::Queue, name),
            ObjectWord::DropObject => self.drop_object(name),
            ObjectWord::Size => self.size(name),
            ObjectWord::Items => self.items(name),
            ObjectWord::First => self.find(Sought::First, name),
            ObjectWord::Last => self.find(Sought::Last, name),
            ObjectWord::FindMin => self.find(Sought::Least, name),
            ObjectWord::DelMin => self.del_min(name),
            ObjectWord::ReverseItems => self.reverse_items(name),
            _ => unreachable!(),
        }
    }

    /// A command that names an object, and then a number.
    fn apply_with(&mut self, word: ObjectWord, name: &[u8], value: i64) -> Reply
        requires whole { IsWhole (record {
          word = commands.Object word;
          args = args.Name name.now ∷ args.Num value ∷ [];
        }) }
        requires met { AreMet self.old (forms_of (commands.Object word))
            (args.Name name.now ∷ args.Num value ∷ []) }
        ensures does { Leads (may_lack_memory (commands.Object word))
            (objects_done word (args.Name name.now ∷ args.Num value ∷ []) self.old)
            self.old result self.new }
        ensures named { IsNamed result }
        ensures quiet { IsQuiet (may_lack_memory (commands.Object word))
            self.old result self.new }
    {
        match word {
            ObjectWord::Push => self.put(End::Front, name, value),
            ObjectWord::Lookup => self.find(Sought::WithKey(value), name),
            ObjectWord::Del => self.del(name, value),
            ObjectWord::Append => self.put(End::Rear, name, value),
            _ => unreachable!(),
        }
    }

    /// A command that names an object, and then two numbers.
    fn apply_with_two(&mut self, word: ObjectWord, name: &[u8], first: i64, second: i64) -> Reply
        requires whole { IsWhole (record {
          word = commands.Object word;
          args = args.Name name.now ∷ args.Num first ∷ args.Num second ∷ [];
        }) }
        requires met { AreMet self.old (forms_of (commands.Object word))
            (args.Name name.now ∷ args.Num first ∷ args.Num second ∷ []) }
        ensures does { Leads (may_lack_memory (commands.Object word))
            (objects_done word (args.Name name.now ∷ args.Num first ∷ args.Num second ∷ [])
            self.old) self.old result self.new }
        ensures named { IsNamed result }
        ensures quiet { IsQuiet (may_lack_memory (commands.Object word))
            self.old result self.new }
    {
        match word {
            ObjectWord::DictInsert => self.dict_insert(name, first, second),
            ObjectWord::QueueInsert => self.queue_insert(name, first, second),
            _ => unreachable!(),
        }
    }

    /// A command that names an item alone.
    fn apply_at(&mut self, word: ObjectWord, number: u32) -> Reply
        requires whole { IsWhole (record {
          word = commands.Object word;
          args = args.Cell number ∷ [];
        }) }
        requires met { AreMet self.old (forms_of (commands.Object word)) (args.Cell number ∷ []) }
        ensures does { Leads (may_lack_memory (commands.Object word))
            (objects_done word (args.Cell number ∷ []) self.old) self.old result self.new }
        ensures named { IsNamed result }
        ensures quiet { IsQuiet (may_lack_memory (commands.Object word))
            self.old result self.new }
    {
        match word {
            ObjectWord::Contents => self.read(Reading::Contents, number),
            ObjectWord::Key => self.read(Reading::Key, number),
            ObjectWord::Prio => self.read(Reading::Priority, number),
            ObjectWord::Inf => self.read(Reading::Information, number),
            ObjectWord::Succ => self.neighbour(Neighbour::Succ, number),
            ObjectWord::Pred => self.neighbour(Neighbour::Pred, number),
            ObjectWord::CyclicSucc => self.neighbour(Neighbour::CyclicSucc, number),
            ObjectWord::CyclicPred => self.neighbour(Neighbour::CyclicPred, number),
            ObjectWord::MoveToFront => self.move_to(End::Front, number),
            ObjectWord::MoveToRear => self.move_to(End::Rear, number),
            ObjectWord::DelItem => self.del_item(number),
            _ => unreachable!(),
        }
    }

    /// A command that names an item, and then a number.
    fn apply_beside(&mut self, word: ObjectWord, number: u32, value: i64) -> Reply
        requires whole { IsWhole (record {
          word = commands.Object word;
          args = args.Cell number ∷ args.Num value ∷ [];
        }) }
        requires met { AreMet self.old (forms_of (commands.Object word))
            (args.Cell number ∷ args.Num value ∷ []) }
        ensures does { Leads (may_lack_memory (commands.Object word))
            (objects_done word (args.Cell number ∷ args.Num value ∷ []) self.old)
            self.old result self.new }
        ensures named { IsNamed result }
        ensures quiet { IsQuiet (may_lack_memory (commands.Object word))
            self.old result self.new }
    {
        match word {
            ObjectWord::InsertBefore => self.insert(Side::Before, number, value),
            ObjectWord::InsertBehind => self.insert(Side::Behind, number, value),
            ObjectWord::Assign => self.write(Writing::Contents, number, value),
            ObjectWord::Decrease => self.decrease(number, value),
            ObjectWord::ChangeInf => self.write(Writing::Information, number, value),
            _ => unreachable!(),
        }
    }
}
