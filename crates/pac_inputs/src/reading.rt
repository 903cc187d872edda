//! A script from its text.

ghost use Rattle.std.specs.Prelude.{◌≡◌, ◌≤◌, [], ◌∷◌, ◌++◌, List, OnOk, IfOk, IfErr, Ok, Err};
ghost use Rattle.pac_inputs.specs.declared.fault.ScriptError.TheVariants as errors;
ghost use Rattle.pac_inputs.specs.declared.fault.ScriptFault.{ScriptFault};
ghost use Rattle.pac_inputs.specs.declared.line.Stretch.{Stretch};
ghost use Rattle.pac_inputs.specs.Script.{with_line, with_line_number, script_of};
ghost use Rattle.pac_inputs.specs.ScriptProofs.{ScriptFails, ScriptGives, OnScriptFault, IsScript};
ghost use Rattle.pac_inputs.specs.ScriptProofs.{HasScriptFault};

use crate::fault::{ScriptCode, ScriptError, ScriptFault};
use crate::line::{FRAME_LIMIT, meaning};
use crate::script::Script;
use pac_lex::first_line;
use std::alloc::Global;

/// The script that a text is: lines of a count of frames and the names of the inputs held in them, or `-`
/// for none, parted by blanks or tabs. Lines without words and those whose first word begins with `#` say
/// nothing. Where a line is wrong, the answer is the first fault.
pub fn read_script(alloc: Global, text: &[u8]) -> Result<Script, ScriptError>
    // What is read is so: the text is this script.
    ensures read { IfOk result (λ script. IsScript text.now script) }
    // What is so is read, unless memory runs out.
    ensures only { (said : List Stretch) → IsScript text.now said → ScriptGives result (Ok said) }
    // The fault told is the text's first, and the text's first is told.
    ensures fault { IfErr result (λ e. OnScriptFault e (HasScriptFault text.now)) }
    ensures refused { (fault : ScriptFault) → HasScriptFault text.now fault →
        ScriptGives result (Err fault) }
    // Which script and which fault, as a function of the text.
    ensures exact { ScriptGives result (script_of text.now) }
{
    read(alloc, text)
}

/// What `read_script` answers, by its exact clause alone, from which the others are proved.
#[tactic(auto, unfolding(crate::specs::Script::script_from_line))]
fn read(alloc: Global, text: &[u8]) -> Result<Script, ScriptError>
    ensures { ScriptGives result (script_of text.now) }
{
    let mut script = Script::new(alloc);
    let mut rest = text;
    let mut number: u64 = 1;
    while let Some((line, after)) = first_line(rest) {
        take_line(&mut script, number, line)?;
        rest = after;
        number += 1;
    }
    Ok(script)
}

/// Adds what the line of this number says to what those before it say.
fn take_line(script: &mut Script, number: u64, line: &[u8]) -> Result<(), ScriptError>
    ensures ok { OnOk result (with_line script.old line.now ≡ Ok script.new) }
    ensures err { IfErr result (λ e. ScriptFails e
        (with_line_number number (with_line script.old line.now))) }
{
    let stretch = match meaning(line) {
        Err(code) => return Err(in_line(code, number)),
        Ok(None) => return Ok(()),
        Ok(Some(stretch)) => stretch,
    };
    if stretch.frames > FRAME_LIMIT - script.frames() {
        return Err(in_line(ScriptCode::Length, number));
    }
    script.push(stretch)?;
    Ok(())
}

/// A fault in the line of this number.
fn in_line(code: ScriptCode, number: u64) -> ScriptError
    ensures { result ≡ errors.Fault (record { code = code; line = number }) }
{
    ScriptError::Fault(ScriptFault { code, line: number })
}
