//! The lines of the canonical text.

ghost use Rattle.std.specs.Prelude.{◌≡◌, ◌<◌, [], ◌∷◌, ◌++◌, map, option_map, IfOk, OnOk};
ghost use Rattle.std.specs.Fmt.{signed_decimal};
ghost use Rattle.std.specs.List.{AllByRecursion, flat_map};
ghost use Rattle.geo_lexer.specs.Lexemes.{word_lexeme};
ghost use Rattle.geo_program.specs.CanonicalText.{argument_lexemes, command_lexemes};
ghost use Rattle.geo_program.specs.CanonicalText.{condition_lexemes};
ghost use Rattle.geo_program.specs.CanonicalText.{commands_lexemes, line_text, no_sketches};
ghost use Rattle.geo_program.specs.CanonicalText.{statement_lexemes};
ghost use Rattle.geo_program.specs.Expressions.{braced, expression_lexemes, point_lexeme};
ghost use Rattle.geo_program.specs.Expressions.{quantity_lexemes};
ghost use Rattle.geo_program.specs.Forms.{command_form, line_argument, number_argument, on_points};
ghost use Rattle.geo_program.specs.Forms.{point_argument, side_argument, statement_form, IsStored};
ghost use Rattle.geo_program.specs.Forms.{AreSidesStored};
ghost use Rattle.geo_program.specs.FormTexts.{form_text};
ghost use Rattle.geo_program.specs.Inner.Printing.{IsPrintableTerm, whole_scope, lines_text};
ghost use Rattle.geo_program.specs.Inner.Printing.{spaced_text};
ghost use Rattle.geo_program.specs.WellFormed.{AreCommands, IsArgument, empty_scope};
ghost use Rattle.geo_terms.specs.Stores.{IsStore, tree_of};

use crate::commands::{Command, LineId};
use crate::name_table::NameTable;
use crate::names::Name;
use crate::program_type::Program;
use crate::statements::Statement;
use geo_base::Text;
use geo_points::{NoMemory, PointId, TermId};
use geo_terms::{Node, Terms};
use std::alloc::Global;

/// Appends a space and a token.
fn push_token(out: &mut Vec<u8>, token: &[u8]) -> Result<(), NoMemory>
    ensures { OnOk result (out.new.items ≡ out.old.items ++ 32 ∷ token.now) }
{
    out.push(b' ')?;
    out.extend_from_slice(token)?;
    Ok(())
}

/// Appends a space and a number.
fn push_number(alloc: Global, out: &mut Vec<u8>, n: i128) -> Result<(), NoMemory>
    ensures { OnOk result (out.new.items ≡ out.old.items ++ 32 ∷ signed_decimal n) }
{
    out.push(b' ')?;
    geo_base::push_decimal(alloc, out, n).map_err(|_| NoMemory)
}

/// Appends the word of a condition that is assumed.
fn push_condition(out: &mut Vec<u8>, condition: Option<&[u8]>) -> Result<(), NoMemory>
    ensures { OnOk result (out.new.items ≡ out.old.items
        ++ spaced_text (condition_lexemes (option_map (λ word. word.now) condition.entry))) }
{
    match condition {
        Some(word) => push_token(out, word),
        None => Ok(()),
    }
}

/// Appends names.
fn push_names(out: &mut Vec<u8>, names: &[Name]) -> Result<(), NoMemory>
    ensures { OnOk result (out.new.items
        ≡ out.old.items ++ spaced_text (map (λ name. word_lexeme name.text) names.now)) }
{
    for name in names {
        push_token(out, name.bytes())?;
    }
    Ok(())
}

/// The names and the terms of a program, from which its lines are printed.
#[derive(Drop)]
pub struct Printer<'a> {
    /// The names, by kind and number.
    pub names: NameTable<'a>,
    /// The terms.
    pub terms: &'a Terms,
}

impl<'a> Printer<'a> {
    /// Appends the lines of the commands that declare these names, one after another.
    pub fn push_commands(
        &self,
        alloc: Global,
        out: &mut Vec<u8>,
        names: &[Name],
        commands: &[Command],
    ) -> Result<(), NoMemory>
        requires store { IsStore self.now.terms.now }
        requires names { self.now.names ≡ names.now }
        requires commands { AreCommands self.now.terms.now empty_scope names.now commands.now }
        ensures { OnOk result (out.new.items ≡ out.old.items ++ lines_text
            (commands_lexemes names.now self.now.terms.now names.now commands.now
            (no_sketches commands.now))) }
    {
        let mut left = names;
        for command in commands {
            let (own, later) = left.split_at(command.name_count());
            self.push_command(alloc, out, own, *command)?;
            out.push(b'\n')?;
            left = later;
        }
        Ok(())
    }

    /// Appends the line of a command with its own name, if it makes one, without its line feed.
    pub fn push_command(
        &self,
        alloc: Global,
        out: &mut Vec<u8>,
        own: &[Name],
        command: Command,
    ) -> Result<(), NoMemory>
        requires store { IsStore self.now.terms.now }
        requires arguments { AllByRecursion (IsArgument (whole_scope self.now.names))
            (command_form self.now.terms.now command).arguments }
        requires stored { IsStored self.now.terms.now command }
        ensures { OnOk result (out.new.items ≡ out.old.items
            ++ line_text (command_lexemes self.now.names self.now.terms.now own.now command)) }
    {
        out.extend_from_slice(command.word())?;
        push_condition(out, command.condition())?;
        push_names(out, own)?;
        self.push_arguments(alloc, out, command)
    }

    /// Appends what stands behind a command's new name or the word of its condition.
    fn push_arguments(
        &self,
        alloc: Global,
        out: &mut Vec<u8>,
        command: Command,
    ) -> Result<(), NoMemory>
        requires store { IsStore self.now.terms.now }
        requires arguments { AllByRecursion (IsArgument (whole_scope self.now.names))
            (command_form self.now.terms.now command).arguments }
        requires stored { IsStored self.now.terms.now command }
        ensures { OnOk result (out.new.items ≡ out.old.items
            ++ spaced_text (flat_map (argument_lexemes self.now.names)
            (command_form self.now.terms.now command).arguments)) }
    {
        match command {
            Command::Point => Ok(()),
            Command::Param => Ok(()),
            Command::Line { a, b } => self.push_points(out, &[a, b]),
            Command::Parallel { p, b } => self.push_point_and_line(out, p, b),
            Command::Perp { p, b } => self.push_point_and_line(out, p, b),
            Command::Med { a, b } => self.push_points(out, &[a, b]),
            Command::Intersec { a, b } => self.push_lines(out, a, b),
            Command::Inter { a, b, c, d } => self.push_points(out, &[a, b, c, d]),
            Command::Foot { p, a, b } => self.push_points(out, &[p, a, b]),
            Command::Pratio { w, u, v, r } => self.push_numbered(alloc, out, &[w, u, v], r),
            Command::Tratio { u, v, r } => self.push_numbered(alloc, out, &[u, v], r),
            Command::Online { a, b } => self.push_points(out, &[a, b]),
            Command::Lratio { a, b, r } => self.push_numbered(alloc, out, &[a, b], r),
            Command::Midpoint { a, b } => self.push_points(out, &[a, b]),
            Command::Translate { a, b, c } => self.push_points(out, &[a, b, c]),
            Command::Symmetric { a, o } => self.push_points(out, &[a, o]),
            Command::Reflect { a, p, q } => self.push_points(out, &[a, p, q]),
            Command::Circumcenter { a, b, c } => self.push_points(out, &[a, b, c]),
            Command::Orthocenter { a, b, c } => self.push_points(out, &[a, b, c]),
            Command::Centroid { a, b, c } => self.push_points(out, &[a, b, c]),
            Command::Oncircle { o, a } => self.push_points(out, &[o, a]),
            Command::Second { a, b, o } => self.push_points(out, &[a, b, o]),
            Command::Cc { o, p, a } => self.push_points(out, &[o, p, a]),
            Command::Inverse { p, o, a } => self.push_points(out, &[p, o, a]),
            Command::Weights { a, b, c, r, s } => self.push_weights(alloc, out, &[a, b, c], r, s),
            Command::AssumeDifferent { a, b } => self.push_points(out, &[a, b]),
            Command::AssumeNotCollinear { a, b, c } => self.push_points(out, &[a, b, c]),
            Command::AssumeNotParallel { a, b, c, d } => self.push_points(out, &[a, b, c, d]),
        }
    }

    /// Appends `prove { .. }` with a statement, without a line feed.
    pub fn push_statement(
        &self,
        alloc: Global,
        out: &mut Vec<u8>,
        statement: Statement,
    ) -> Result<(), NoMemory>
        requires store { IsStore self.now.terms.now }
        requires arguments { AllByRecursion (IsArgument (whole_scope self.now.names))
            (statement_form self.now.terms.now statement).arguments }
        requires sides { AreSidesStored self.now.terms.now statement }
        ensures { OnOk result (out.new.items ≡ out.old.items
            ++ line_text (statement_lexemes self.now.names self.now.terms.now statement)) }
    {
        out.extend_from_slice(b"prove")?;
        push_token(out, b"{")?;
        push_token(out, statement.word())?;
        self.push_statement_arguments(alloc, out, statement)?;
        push_token(out, b"}")
    }

    /// Appends what stands behind a statement's word.
    fn push_statement_arguments(
        &self,
        alloc: Global,
        out: &mut Vec<u8>,
        statement: Statement,
    ) -> Result<(), NoMemory>
        requires store { IsStore self.now.terms.now }
        requires arguments { AllByRecursion (IsArgument (whole_scope self.now.names))
            (statement_form self.now.terms.now statement).arguments }
        requires sides { AreSidesStored self.now.terms.now statement }
        ensures { OnOk result (out.new.items ≡ out.old.items
            ++ spaced_text (flat_map (argument_lexemes self.now.names)
            (statement_form self.now.terms.now statement).arguments)) }
    {
        match statement {
            Statement::Equal { e, f } => self.push_sides(alloc, out, e, f),
            Statement::Collinear { a, b, c } => self.push_points(out, &[a, b, c]),
            Statement::Parallel { a, b, c, d } => self.push_points(out, &[a, b, c, d]),
            Statement::Perpendicular { a, b, c, d } => self.push_points(out, &[a, b, c, d]),
            Statement::Identical { a, b } => self.push_points(out, &[a, b]),
            Statement::Midpoint { m, a, b } => self.push_points(out, &[m, a, b]),
            Statement::SameLength { a, b, c, d } => self.push_points(out, &[a, b, c, d]),
            Statement::Harmonic { a, b, c, d } => self.push_points(out, &[a, b, c, d]),
            Statement::Concyclic { a, b, c, d } => self.push_points(out, &[a, b, c, d]),
        }
    }

    /// Appends points.
    fn push_points(&self, out: &mut Vec<u8>, points: &[PointId]) -> Result<(), NoMemory>
        requires { AllByRecursion (λ a. a.0 < (whole_scope self.now.names).points) points.now }
        ensures { OnOk result (out.new.items
            ≡ out.old.items ++ spaced_text (map (point_lexeme self.now.names) points.now)) }
    {
        for point in points {
            push_token(out, self.names.point(*point))?;
        }
        Ok(())
    }

    /// Appends a point and a line.
    fn push_point_and_line(&self, out: &mut Vec<u8>, p: PointId, b: LineId) -> Result<(), NoMemory>
        requires point { p.0 < (whole_scope self.now.names).points }
        requires line { b.0 < (whole_scope self.now.names).lines }
        ensures { OnOk result (out.new.items ≡ out.old.items
            ++ spaced_text (flat_map (argument_lexemes self.now.names)
            (point_argument p ∷ line_argument b ∷ []))) }
    {
        push_token(out, self.names.point(p))?;
        push_token(out, self.names.line(b))
    }

    /// Appends two lines.
    fn push_lines(&self, out: &mut Vec<u8>, a: LineId, b: LineId) -> Result<(), NoMemory>
        requires a { a.0 < (whole_scope self.now.names).lines }
        requires b { b.0 < (whole_scope self.now.names).lines }
        ensures { OnOk result (out.new.items ≡ out.old.items
            ++ spaced_text (flat_map (argument_lexemes self.now.names)
            (line_argument a ∷ line_argument b ∷ []))) }
    {
        push_token(out, self.names.line(a))?;
        push_token(out, self.names.line(b))
    }

    /// Appends points and the number of a step.
    fn push_numbered(
        &self,
        alloc: Global,
        out: &mut Vec<u8>,
        points: &[PointId],
        r: TermId,
    ) -> Result<(), NoMemory>
        requires points { AllByRecursion (λ a. a.0 < (whole_scope self.now.names).points)
            points.now }
        requires number { IsPrintableTerm self.now.names self.now.terms.now r }
        ensures { OnOk result (out.new.items ≡ out.old.items
            ++ spaced_text (flat_map (argument_lexemes self.now.names)
            (map point_argument points.now
            ++ number_argument (tree_of self.now.terms.now r) ∷ []))) }
    {
        self.push_points(out, points)?;
        self.push_expression(alloc, out, r)
    }

    /// Appends points and the two numbers of a step.
    fn push_weights(
        &self,
        alloc: Global,
        out: &mut Vec<u8>,
        points: &[PointId],
        r: TermId,
        s: TermId,
    ) -> Result<(), NoMemory>
        requires points { AllByRecursion (λ a. a.0 < (whole_scope self.now.names).points)
            points.now }
        requires r { IsPrintableTerm self.now.names self.now.terms.now r }
        requires s { IsPrintableTerm self.now.names self.now.terms.now s }
        ensures { OnOk result (out.new.items ≡ out.old.items
            ++ spaced_text (flat_map (argument_lexemes self.now.names)
            (map point_argument points.now ++ number_argument (tree_of self.now.terms.now r)
            ∷ number_argument (tree_of self.now.terms.now s) ∷ []))) }
    {
        self.push_numbered(alloc, out, points, r)?;
        self.push_expression(alloc, out, s)
    }

    /// Appends the two sides of an equation.
    fn push_sides(
        &self,
        alloc: Global,
        out: &mut Vec<u8>,
        e: TermId,
        f: TermId,
    ) -> Result<(), NoMemory>
        requires e { IsPrintableTerm self.now.names self.now.terms.now e }
        requires f { IsPrintableTerm self.now.names self.now.terms.now f }
        ensures { OnOk result (out.new.items ≡ out.old.items
            ++ spaced_text (flat_map (argument_lexemes self.now.names)
            (side_argument (tree_of self.now.terms.now e)
            ∷ side_argument (tree_of self.now.terms.now f) ∷ []))) }
    {
        self.push_braced(alloc, out, e)?;
        self.push_braced(alloc, out, f)
    }

    /// Appends an expression. The calls stand at most as deep as braces do.
    #[cycle(expressions)]
    fn push_expression(&self, alloc: Global, out: &mut Vec<u8>, e: TermId) -> Result<(), NoMemory>
        requires { IsPrintableTerm self.now.names self.now.terms.now e }
        ensures { OnOk result (out.new.items ≡ out.old.items
            ++ spaced_text (expression_lexemes self.now.names (tree_of self.now.terms.now e))) }
    {
        match self.terms.node(e) {
            Node::Int(n) => push_number(alloc, out, n),
            Node::Param(t) => push_token(out, self.names.param(t)),
            Node::S(a, b, c) => self.push_quantity(out, b"signed_area3", &[a, b, c]),
            Node::P(a, b, c) => self.push_quantity(out, b"pythagoras_difference3", &[a, b, c]),
            Node::R(a, b, c, d) => self.push_quantity(out, b"sratio", &[a, b, c, d]),
            Node::Neg(e) => {
                push_token(out, b"neg")?;
                self.push_braced(alloc, out, e)
            }
            Node::Add(e, f) => self.push_operation(alloc, out, b"sum", e, f),
            Node::Sub(e, f) => self.push_operation(alloc, out, b"sub", e, f),
            Node::Mul(e, f) => self.push_operation(alloc, out, b"mult", e, f),
            Node::Div(e, f) => self.push_operation(alloc, out, b"div", e, f),
        }
    }

    /// Appends the word of a quantity and its points.
    fn push_quantity(
        &self,
        out: &mut Vec<u8>,
        word: &[u8],
        points: &[PointId],
    ) -> Result<(), NoMemory>
        requires { AllByRecursion (λ a. a.0 < (whole_scope self.now.names).points) points.now }
        ensures { OnOk result (out.new.items
            ≡ out.old.items ++ spaced_text (quantity_lexemes self.now.names word.now points.now)) }
    {
        push_token(out, word)?;
        self.push_points(out, points)
    }

    /// Appends the word of an operation and its two parts.
    #[cycle(expressions)]
    fn push_operation(
        &self,
        alloc: Global,
        out: &mut Vec<u8>,
        word: &[u8],
        e: TermId,
        f: TermId,
    ) -> Result<(), NoMemory>
        requires e { IsPrintableTerm self.now.names self.now.terms.now e }
        requires f { IsPrintableTerm self.now.names self.now.terms.now f }
        ensures { OnOk result (out.new.items ≡ out.old.items ++ spaced_text (word_lexeme word.now
            ∷ braced (expression_lexemes self.now.names (tree_of self.now.terms.now e))
            ++ braced (expression_lexemes self.now.names (tree_of self.now.terms.now f)))) }
    {
        push_token(out, word)?;
        self.push_braced(alloc, out, e)?;
        self.push_braced(alloc, out, f)
    }

    /// Appends an expression between braces.
    #[cycle(expressions)]
    fn push_braced(&self, alloc: Global, out: &mut Vec<u8>, e: TermId) -> Result<(), NoMemory>
        requires { IsPrintableTerm self.now.names self.now.terms.now e }
        ensures { OnOk result (out.new.items ≡ out.old.items
            ++ spaced_text (braced
            (expression_lexemes self.now.names (tree_of self.now.terms.now e)))) }
    {
        push_token(out, b"{")?;
        self.push_expression(alloc, out, e)?;
        push_token(out, b"}")
    }
}

impl<'a> Printer<'a> {
    /// The printer of a program's names and terms.
    pub fn new(alloc: Global, program: &'a Program) -> Result<Printer<'a>, NoMemory>
        ensures names { IfOk result (λ printer. printer.names ≡ program.now.names) }
        ensures terms { IfOk result (λ printer. printer.terms.now ≡ program.now.terms) }
    {
        Ok(Printer {
            names: NameTable::new(alloc, program.names.as_slice())?,
            terms: &program.terms,
        })
    }

    /// The text of a word and points, with single spaces between them.
    pub fn points_text(
        &self,
        alloc: Global,
        word: &[u8],
        points: &[PointId],
    ) -> Result<Text, NoMemory>
        requires { AllByRecursion (λ a. a.0 < (whole_scope self.now.names).points) points.now }
        ensures { IfOk result (λ text. text
            ≡ form_text self.now.names (on_points word.now points.now)) }
    {
        let mut bytes = Vec::new(alloc);
        bytes.extend_from_slice(word)?;
        self.push_points(&mut bytes, points)?;
        Ok(Text { bytes })
    }

    /// The text of a word and two lines.
    pub fn lines_text(
        &self,
        alloc: Global,
        word: &[u8],
        a: LineId,
        b: LineId,
    ) -> Result<Text, NoMemory>
        requires a { a.0 < (whole_scope self.now.names).lines }
        requires b { b.0 < (whole_scope self.now.names).lines }
        ensures { IfOk result (λ text. text ≡ form_text self.now.names
            (record { word = word.now; arguments = line_argument a ∷ line_argument b ∷ [] })) }
    {
        let mut bytes = Vec::new(alloc);
        bytes.extend_from_slice(word)?;
        self.push_lines(&mut bytes, a, b)?;
        Ok(Text { bytes })
    }

    /// The text of a word and a term between braces.
    pub fn side_text(&self, alloc: Global, word: &[u8], e: TermId) -> Result<Text, NoMemory>
        requires { IsPrintableTerm self.now.names self.now.terms.now e }
        ensures { IfOk result (λ text. text ≡ form_text self.now.names (record {
          word = word.now;
          arguments = side_argument (tree_of self.now.terms.now e) ∷ [];
        })) }
    {
        let mut bytes = Vec::new(alloc);
        bytes.extend_from_slice(word)?;
        self.push_braced(alloc, &mut bytes, e)?;
        Ok(Text { bytes })
    }

    /// The text of a statement, without `prove` and the braces around it.
    pub fn statement_text(&self, alloc: Global, statement: Statement) -> Result<Text, NoMemory>
        requires store { IsStore self.now.terms.now }
        requires arguments { AllByRecursion (IsArgument (whole_scope self.now.names))
            (statement_form self.now.terms.now statement).arguments }
        requires sides { AreSidesStored self.now.terms.now statement }
        ensures { IfOk result (λ text. text
            ≡ form_text self.now.names (statement_form self.now.terms.now statement)) }
    {
        let mut bytes = Vec::new(alloc);
        bytes.extend_from_slice(statement.word())?;
        self.push_statement_arguments(alloc, &mut bytes, statement)?;
        Ok(Text { bytes })
    }
}
