//! What the first phase does for a line, by the line's form.

ghost use Rattle.std.specs.Prelude.{◌≡◌, None, option_map};
ghost use Rattle.pac_lex.specs.TokensProofs.{views};
ghost use Rattle.pac_asm_line.specs.Contents.{statement_size};
ghost use Rattle.pac_asm_line.specs.Statements as says;
ghost use Rattle.pac_asm_line.specs.Views.{expression_tree, seen_statement, seen_form};
ghost use Rattle.pac_asm.specs.Conditions as condition;
ghost use Rattle.pac_asm.specs.Errors.{LineBecomes};
ghost use Rattle.pac_asm.specs.Phase1 as spec;
ghost use Rattle.pac_asm.specs.Phase1Proofs.{after_tokens};

use crate::condition::IfState;
use crate::fault::{AsmCode, LineError};
use crate::place::LineLayout;
use crate::standing::Standing;
use pac_asm_line::{Conditional, Expression, Form, Statement, conditional_of, form};
use pac_lex::{Token, tokens};
use std::alloc::Global;

impl Standing {
    /// Takes a line by itself, whatever stands below it.
    #[tactic(auto, unfolding(crate::specs::Phase1::after_text))]
    pub(crate) fn after_text(&mut self, alloc: Global, line: &[u8]) -> Result<(), LineError>
        ensures { LineBecomes result (spec.after_text self.old line.now) self.new }
    {
        let word = conditional_of(line);
        if self.is_judged(word) {
            self.after_judged(alloc, line)
        } else {
            self.after_passed(word)
        }
    }

    /// Takes a line that is judged whole.
    #[tactic(auto, unfolding(crate::specs::Reading::form_of_line))]
    fn after_judged(&mut self, alloc: Global, line: &[u8]) -> Result<(), LineError>
        ensures { LineBecomes result (spec.after_judged self.old line.now) self.new }
    {
        let tokens = tokens(alloc, line)?;
        self.after_tokens(alloc, &tokens)
    }

    /// Takes a line of these tokens.
    fn after_tokens(&mut self, alloc: Global, tokens: &[Token<'_>]) -> Result<(), LineError>
        ensures { LineBecomes result (after_tokens self.old (views tokens.now)) self.new }
    {
        match form(tokens) {
            None => Err(LineError::Code(AsmCode::Syntax)),
            Some(form) => self.after_form(alloc, &form),
        }
    }

    /// Takes a line of this form.
    fn after_form(&mut self, alloc: Global, form: &Form<'_, '_>) -> Result<(), LineError>
        ensures { LineBecomes result (spec.after_form self.old (seen_form form.now)) self.new }
    {
        if !self.is_new(form.label) {
            return Err(LineError::Code(AsmCode::DefinedBefore));
        }
        self.after_statement(alloc, form.label, &form.statement)
    }

    /// Takes a statement, in a line whose label is new.
    fn after_statement(
        &mut self,
        alloc: Global,
        label: Option<&[u8]>,
        statement: &Statement<'_, '_>,
    ) -> Result<(), LineError>
        ensures { LineBecomes result (spec.after_statement self.old
            (option_map (λ name. name.now) label.entry)
            (seen_statement statement.now)) self.new }
    {
        match statement {
            Statement::Nothing => self.after_nothing(alloc, label),
            Statement::Origin(place) => self.after_origin(place),
            Statement::Equate(number) => self.after_equate(alloc, label, number),
            Statement::Condition(test) => self.after_if(test),
            Statement::Otherwise => self.after_else(),
            Statement::EndCondition => self.after_end(),
            Statement::Space(size, _) => self.after_space(alloc, label, size),
            Statement::Bytes(_)
            | Statement::Text(_)
            | Statement::Words(_)
            | Statement::Operation(_) => self.after_sized(alloc, label, statement),
        }
    }

    /// Takes a line without an operation: its label, if any, stands for the address reached.
    fn after_nothing(&mut self, alloc: Global, label: Option<&[u8]>) -> Result<(), LineError>
        ensures { LineBecomes result (spec.after_statement self.old
            (option_map (λ name. name.now) label.entry) says.nothing) self.new }
    {
        self.add_labelled(alloc, label, i32::from(self.at()), LineLayout::Blank)
    }

    /// Takes an ORG: the next line stands at its address.
    fn after_origin(&mut self, place: &Expression<'_, '_>) -> Result<(), LineError>
        ensures { LineBecomes result (spec.after_statement self.old None
            (says.origin (expression_tree place.now))) self.new }
    {
        let at = self.known_place(place)?;
        self.go_to(at);
        self.add(LineLayout::Blank)
    }

    /// Takes an EQU: its label stands for the value of its expression.
    fn after_equate(
        &mut self,
        alloc: Global,
        label: Option<&[u8]>,
        number: &Expression<'_, '_>,
    ) -> Result<(), LineError>
        ensures { LineBecomes result
            (spec.after_statement self.old (option_map (λ name. name.now) label.entry)
            (says.equate (expression_tree number.now)))
            self.new }
    {
        let value = self.known(number)?;
        self.add_labelled(alloc, label, value, LineLayout::Blank)
    }

    /// Takes an IF, which is open from there on.
    fn after_if(&mut self, test: &Expression<'_, '_>) -> Result<(), LineError>
        ensures { LineBecomes result (spec.after_statement self.old None
            (says.condition (expression_tree test.now))) self.new }
    {
        if !self.has_room() {
            return Err(LineError::Code(AsmCode::TooDeep));
        }
        let value = self.known(test)?;
        self.push(condition_of(value));
        self.add(LineLayout::Blank)
    }

    /// Takes a DEFS, whose size is the value of its first expression.
    fn after_space(
        &mut self,
        alloc: Global,
        label: Option<&[u8]>,
        size: &Expression<'_, '_>,
    ) -> Result<(), LineError>
        ensures { LineBecomes result
            (spec.after_statement self.old (option_map (λ name. name.now) label.entry)
            (says.space (expression_tree size.now) None))
            self.new }
    {
        let size = self.known_place(size)?;
        self.after_item(alloc, label, size)
    }

    /// Takes a line with an item, whose size its form tells.
    fn after_sized(
        &mut self,
        alloc: Global,
        label: Option<&[u8]>,
        statement: &Statement<'_, '_>,
    ) -> Result<(), LineError>
        ensures { LineBecomes result
            (spec.after_item self.old (option_map (λ name. name.now) label.entry)
            (statement_size (seen_statement statement.now)))
            self.new }
    {
        self.after_item(alloc, label, statement.size())
    }

    /// Takes a line with an item of so many bytes.
    fn after_item(
        &mut self,
        alloc: Global,
        label: Option<&[u8]>,
        size: u16,
    ) -> Result<(), LineError>
        ensures { LineBecomes result (spec.after_item self.old
            (option_map (λ name. name.now) label.entry) size) self.new }
    {
        let span = self.room_for(size)?;
        self.go_to(span.at + span.size);
        self.add_labelled(alloc, label, i32::from(span.at), LineLayout::Placed(span))
    }
}

/// What is known of an IF of this value.
fn condition_of(value: i32) -> IfState
    ensures { result ≡ condition.condition_of value }
{
    if value == 0 {
        IfState::Unmet
    } else {
        IfState::Met
    }
}
