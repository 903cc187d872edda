//! The open IFs of a source.

ghost use Rattle.std.specs.Prelude.{◌≡◌, ◌<◌, [], ◌∷◌, length, nat_lt, MatchOption, MatchResult};
ghost use Rattle.std.specs.Prelude.{Ok, Err};
ghost use Rattle.pac_asm.specs.Conditions as spec;

use crate::fault::AsmCode;
use arrayvec::ArrayVec;
use pac_asm_line::Conditional;
use std::marker::Model;

/// What is known of an IF that isn't closed yet.
#[derive(Clone, Copy, Default)]
pub(crate) enum IfState {
    /// It is true: the lines after it count, up to its ELSE or ENDIF.
    #[default]
    Met,
    /// It is false: the lines after it are skipped, up to its ELSE or ENDIF.
    Unmet,
    /// After the ELSE of a false one: lines count, up to its ENDIF.
    Otherwise,
    /// After the ELSE of a true one: lines are skipped, up to its ENDIF.
    Over,
    /// It stands itself in lines that are skipped, and so are those up to its ENDIF.
    Passed,
}

impl IfState {
    /// Whether lines count inside the IF.
    fn counts(self) -> bool
        ensures { result ≡ spec.counts_inside self }
    {
        match self {
            IfState::Met | IfState::Otherwise => true,
            IfState::Unmet | IfState::Over | IfState::Passed => false,
        }
    }

    /// Whether a line that begins with this word ends the lines that the IF skips.
    fn ends_skipping(self, word: Option<Conditional>) -> bool
        ensures { result ≡ spec.ends_skipping self word }
    {
        match self {
            IfState::Unmet => matches!(word, Some(Conditional::Else | Conditional::EndIf)),
            IfState::Over => matches!(word, Some(Conditional::EndIf)),
            _ => false,
        }
    }
}

/// The open IFs, at most eight. Clauses see a list of them with the innermost first.
#[derive(Drop)]
pub(crate) struct Conditions {
    open: ArrayVec<IfState, 8>,
}

impl Model for Conditions {
    ghost use Rattle.std.specs.Prelude.{◌≤◌, List, length, reverse};
    ghost use Rattle.pac_asm.specs.declared.condition.IfState.{IfState};

    ghost Value = { List IfState };

    ghost view = { λ conditions. reverse conditions.open.items };

    ghost invariant = { λ conditions. length conditions.open.items ≤ 8 };
}

impl Conditions {
    /// No open IF.
    pub(crate) fn new() -> Conditions
        ensures { result ≡ [] }
    {
        Conditions {
            open: ArrayVec::new(),
        }
    }

    /// Whether one IF more may be open.
    pub(crate) fn has_room(&self) -> bool
        ensures { result ≡ nat_lt (length self.now) spec.most_open_ifs }
    {
        !self.open.is_full()
    }

    /// Opens an IF inside all others.
    pub(crate) fn push(&mut self, condition: IfState)
        requires { length self.old < spec.most_open_ifs }
        ensures { self.new ≡ condition ∷ self.old }
    {
        self.open.push(condition);
    }

    /// Takes the innermost open IF away.
    fn pop(&mut self) -> Option<IfState>
        ensures innermost { MatchOption result ((self.old ≡ []) × (self.new ≡ []))
            (λ condition. self.old ≡ condition ∷ self.new) }
        ensures room { length self.new < spec.most_open_ifs }
    {
        self.open.pop()
    }

    /// Whether a line that begins with this word is judged whole.
    pub(crate) fn is_judged(&self, word: Option<Conditional>) -> bool
        ensures { result ≡ spec.is_judged self.now word }
    {
        match self.open.last() {
            None => true,
            Some(innermost) => innermost.counts() || innermost.ends_skipping(word),
        }
    }

    /// Takes an ELSE that is judged: the lines after it count where those before it didn't.
    pub(crate) fn after_else(&mut self) -> Result<(), AsmCode>
        ensures { MatchResult result (λ _. spec.after_else self.old ≡ Ok self.new)
            (λ code. spec.after_else self.old ≡ Err code) }
    {
        match self.pop() {
            Some(IfState::Met) => self.push(IfState::Over),
            Some(IfState::Unmet) => self.push(IfState::Otherwise),
            _ => return Err(AsmCode::NoOpenIf),
        }
        Ok(())
    }

    /// Takes an ENDIF that is judged: the innermost IF is closed.
    pub(crate) fn after_end(&mut self) -> Result<(), AsmCode>
        ensures { MatchResult result (λ _. spec.after_end self.old ≡ Ok self.new)
            (λ code. spec.after_end self.old ≡ Err code) }
    {
        match self.pop() {
            Some(_) => Ok(()),
            None => Err(AsmCode::NoOpenIf),
        }
    }

    /// Takes a skipped line that begins with this word; IF and ENDIF pair up there too.
    pub(crate) fn after_skipped(&mut self, word: Option<Conditional>) -> Result<(), AsmCode>
        ensures { MatchResult result (λ _. spec.after_skipped word self.old ≡ Ok self.new)
            (λ code. spec.after_skipped word self.old ≡ Err code) }
    {
        match word {
            Some(Conditional::If) => {
                if !self.has_room() {
                    return Err(AsmCode::TooDeep);
                }
                self.push(IfState::Passed);
            }
            Some(Conditional::EndIf) => {
                self.pop();
            }
            _ => {}
        }
        Ok(())
    }
}
