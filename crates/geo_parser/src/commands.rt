//! Reading the commands.

ghost use Rattle.std.specs.Prelude.{◌≡◌, ◌+◌, ◌≤◌, ◌∷◌, [], IfOk, IfNone, IfSome, OnOk, Some};
ghost use Rattle.std.specs.Prelude.{length};
ghost use Rattle.geo_lexer.specs.declared.token_types.Fault.{Fault};
ghost use Rattle.geo_parser.specs.Inner.CommandWords.{command_due, command_kind, command_slots};
ghost use Rattle.geo_parser.specs.Inner.CommandWords.{condition_slots};
ghost use Rattle.geo_parser.specs.Forms.{command_slot, condition_slot, new_name_slot};
ghost use Rattle.geo_parser.specs.Forms.{second_number_slot};
ghost use Rattle.geo_parser.specs.Forms.{sketch_slot};
ghost use Rattle.geo_parser.specs.Inner.Reads.{ReadsAllCommands, ReadsCommand, ReadsCondition};
ghost use Rattle.geo_parser.specs.Inner.Reads.{ReadsForm};
ghost use Rattle.geo_parser.specs.Inner.Reads.{ReadsNewName, ReadsProve, ReadsSecond, ReadsSketch};
ghost use Rattle.geo_parser.specs.Inner.Reads.{ReadsWord, Refuses, extent, fault_of};

use crate::command_words::{CommandWord, ConditionWord};
use crate::cursor::Symbol;
use crate::errors::{ParseError, Refusal};
use crate::reader::Reader;
use geo_program::{Command, Commands, NameKind};
use std::alloc::Global;

/// How many points the commands of a program may make, those of constructions counted.
const MOST_POINTS: u32 = 512;

impl<'a> Reader<'a> {
    /// The commands, up to `prove`.
    pub fn commands(&mut self, alloc: Global) -> Result<Commands, ParseError>
        requires no_names { self.old.names ≡ [] }
        requires no_points { self.old.points ≡ 0 }
        requires room { extent self.old ≤ 67108864 }
        ensures ok { IfOk result (ReadsAllCommands self.old self.new) }
        ensures refused { (f : Fault) → result ≡ Err (ParseError.Syntax f)
            → fault_of self.old [] (command_slot ∷ []) ≡ Some f }
    {
        let mut items = Vec::new(alloc);
        while let Some(word) = self.command_word()? {
            let command = self.command(alloc, word)?;
            items.push(command)?;
        }
        Ok(Commands { items })
    }

    // The word that begins a command, or `None` for `prove`.
    fn command_word(&mut self) -> Result<Option<CommandWord>, ParseError>
        ensures command { IfOk result (λ o. IfSome o (λ word. ReadsWord word self.old self.new)) }
        ensures prove { IfOk result (λ o. IfNone o (ReadsProve self.old self.new)) }
        ensures refused { (f : Fault) → result ≡ Err (ParseError.Syntax f)
            → fault_of self.old [] (command_slot ∷ []) ≡ Some f }
    {
        let word = match self.cursor.peek() {
            Some(Symbol::Word(word)) => word,
            Some(_) => return Err(self.refuse(Refusal::Expected)),
            None => return Err(self.refuse(Refusal::NoStatement)),
        };
        if word == b"prove".as_slice() {
            self.cursor.advance();
            return Ok(None);
        }
        if word == b"assume".as_slice() {
            self.cursor.advance();
            return Ok(Some(CommandWord::Assume(self.condition_word()?)));
        }
        match CommandWord::of(word) {
            Some(command) => {
                self.cursor.advance();
                Ok(Some(command))
            }
            None => Err(self.refuse(Refusal::Expected)),
        }
    }

    // The word of the condition behind `assume`.
    fn condition_word(&mut self) -> Result<ConditionWord, ParseError>
        ensures ok { IfOk result (λ word. ReadsCondition word self.old self.new) }
        ensures refused { (f : Fault) → result ≡ Err (ParseError.Syntax f)
            → Refuses (condition_slot ∷ []) self.old f }
    {
        let Some(Symbol::Word(word)) = self.cursor.peek() else {
            return Err(self.refuse(Refusal::Expected));
        };
        match ConditionWord::of(word) {
            Some(condition) => {
                self.cursor.advance();
                Ok(condition)
            }
            None => Err(self.refuse(Refusal::Expected)),
        }
    }

    // The command that the word begins.
    fn command(&mut self, alloc: Global, word: CommandWord) -> Result<Command, ParseError>
        requires few { self.old.points ≤ 512 }
        requires room { extent self.old ≤ 67108864 }
        requires names { length self.old.names + length self.old.cursor.tokens ≤ 67108864 }
        ensures ok { IfOk result (ReadsCommand word self.old self.new) }
        ensures refused { (f : Fault) → result ≡ Err (ParseError.Syntax f)
            → Refuses (command_due word) self.old f }
    {
        match word.kind() {
            Some(kind) => self.named_command(alloc, word, kind),
            None => self.arguments(word),
        }
    }

    // The command with a new name of this kind that the word begins. The name is declared at its
    // end.
    fn named_command(
        &mut self,
        alloc: Global,
        word: CommandWord,
        kind: NameKind,
    ) -> Result<Command, ParseError>
        requires kind { command_kind word ≡ Some kind }
        requires few { self.old.points ≤ 512 }
        requires room { extent self.old ≤ 67108864 }
        requires names { length self.old.names + length self.old.cursor.tokens ≤ 67108864 }
        ensures ok { IfOk result (ReadsCommand word self.old self.new) }
        ensures refused { (f : Fault) → result ≡ Err (ParseError.Syntax f)
            → Refuses (command_due word) self.old f }
    {
        let name = self.new_name(word.points())?;
        let command = self.arguments(word)?;
        self.names.declare(alloc, name, kind)?;
        Ok(command)
    }

    // The new name of a command that makes so many points.
    fn new_name(&mut self, points: u32) -> Result<&'a [u8], ParseError>
        requires few { self.old.points ≤ 512 }
        requires points { points ≤ 5 }
        ensures ok { IfOk result (λ word. ReadsNewName points self.old self.new word.now) }
        ensures refused { (f : Fault) → result ≡ Err (ParseError.Syntax f)
            → (kind : NameKind) → Refuses (new_name_slot kind points ∷ []) self.old f }
    {
        let Some(Symbol::Word(word)) = self.cursor.peek() else {
            return Err(self.refuse(Refusal::Expected));
        };
        if let Err(refusal) = self.names.check_new(word) {
            return Err(self.refuse(refusal));
        }
        if self.points + points > MOST_POINTS {
            return Err(self.refuse(Refusal::TooManyPoints));
        }
        self.points += points;
        self.cursor.advance();
        Ok(word)
    }

    // What stands behind the new name or the word of the condition.
    fn arguments(&mut self, word: CommandWord) -> Result<Command, ParseError>
        requires { extent self.old ≤ 67108864 }
        ensures ok { IfOk result (ReadsForm word self.old self.new) }
        ensures refused { (f : Fault) → result ≡ Err (ParseError.Syntax f)
            → Refuses (command_slots word) self.old f }
    {
        match word {
            CommandWord::Point => {
                self.sketch()?;
                Ok(Command::Point)
            }
            CommandWord::Param => Ok(Command::Param),
            CommandWord::Pair(word) => {
                let (a, b) = self.two_points()?;
                Ok(word.on(a, b))
            }
            CommandWord::Triple(word) => {
                let (a, b, c) = self.three_points()?;
                Ok(word.on(a, b, c))
            }
            CommandWord::Inter => {
                let (a, b, c, d) = self.four_points()?;
                Ok(Command::Inter { a, b, c, d })
            }
            CommandWord::Direction(word) => {
                let p = self.point()?;
                let b = self.line()?;
                Ok(word.on(p, b))
            }
            CommandWord::Intersec => {
                let a = self.line()?;
                let b = self.line()?;
                Ok(Command::Intersec { a, b })
            }
            CommandWord::Pratio => {
                let (w, u, v) = self.three_points()?;
                let r = self.number()?;
                Ok(Command::Pratio { w, u, v, r })
            }
            CommandWord::Step(word) => {
                let (a, b) = self.two_points()?;
                let r = self.number()?;
                Ok(word.on(a, b, r))
            }
            CommandWord::Weights => self.weights(),
            CommandWord::Assume(word) => self.assumed(word),
        }
    }

    // The three points and two numbers of `weights`.
    fn weights(&mut self) -> Result<Command, ParseError>
        requires { extent self.old ≤ 67108864 }
        ensures ok { IfOk result (ReadsForm CommandWord.Weights self.old self.new) }
        ensures refused { (f : Fault) → result ≡ Err (ParseError.Syntax f)
            → Refuses (command_slots CommandWord.Weights) self.old f }
    {
        let (a, b, c) = self.three_points()?;
        let r = self.number()?;
        let s = self.number()?;
        Ok(Command::Weights { a, b, c, r, s })
    }

    // The points of a condition that is assumed.
    fn assumed(&mut self, word: ConditionWord) -> Result<Command, ParseError>
        ensures ok { IfOk result (ReadsForm (CommandWord.Assume word) self.old self.new) }
        ensures refused { (f : Fault) → result ≡ Err (ParseError.Syntax f)
            → Refuses (condition_slots word) self.old f }
    {
        match word {
            ConditionWord::Different => {
                let (a, b) = self.two_points()?;
                Ok(Command::AssumeDifferent { a, b })
            }
            ConditionWord::NotCollinear => {
                let (a, b, c) = self.three_points()?;
                Ok(Command::AssumeNotCollinear { a, b, c })
            }
            ConditionWord::NotParallel => {
                let (a, b, c, d) = self.four_points()?;
                Ok(Command::AssumeNotParallel { a, b, c, d })
            }
        }
    }

    // The two numbers that may follow the name of a point, and mean nothing.
    fn sketch(&mut self) -> Result<(), ParseError>
        ensures ok { OnOk result (ReadsSketch self.old self.new) }
        ensures refused { (f : Fault) → result ≡ Err (ParseError.Syntax f)
            → Refuses (sketch_slot ∷ []) self.old f }
    {
        if let Some(Symbol::Number(_)) = self.cursor.peek() {
            self.cursor.advance();
            self.second_number()?;
        }
        Ok(())
    }

    // The second of the two numbers.
    fn second_number(&mut self) -> Result<(), ParseError>
        ensures ok { OnOk result (ReadsSecond self.old self.new) }
        ensures refused { (f : Fault) → result ≡ Err (ParseError.Syntax f)
            → Refuses (second_number_slot ∷ []) self.old f }
    {
        let Some(Symbol::Number(_)) = self.cursor.peek() else {
            return Err(self.refuse(Refusal::Expected));
        };
        self.cursor.advance();
        Ok(())
    }
}
