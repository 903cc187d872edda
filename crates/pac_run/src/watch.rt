//! A session with its commands, and what it tells.

ghost use Rattle.std.specs.Prelude.{◌≡◌};
ghost use Rattle.std.specs.Str.Lines.{lines};
ghost use Rattle.pac_board_course.specs.SinksLaws.{by};
ghost use Rattle.pac_debug.specs.Session.{session_at_start};
ghost use Rattle.pac_run.specs.Playing.{PlaysInto, session_played, watch_playing};
ghost use Rattle.pac_run.specs.Run.{writing};

use crate::play::Plays;
use pac_board_course::Sink;
use pac_debug::{CommandFault, Outcome, Session, watch};
use pac_media::{Counted, Out};

/// A session that does its commands and goes on to the end of its run then.
#[derive(Drop)]
pub struct Watching<'a, T> {
    /// The session, before it plays.
    pub session: Option<Session>,
    /// The commands, a line each.
    pub commands: &'a [u8],
    /// Where it tells what they ask.
    pub text: T,
}

impl<T> Watching<'_, T> {
    /// Where it told.
    pub(crate) fn into_text(self) -> T
        ensures { result ≡ self.entry.text }
    {
        let Watching {
            session: _,
            commands: _,
            text,
        } = self;
        text
    }
}

/// Does a session's commands, tells in a new file what they ask, and goes on to the end of the run.
fn watch_new<S: Sink, T: Out>(
    session: Session,
    commands: &[u8],
    sink: &mut S,
    text: &mut T,
) -> Result<Outcome, CommandFault>
    requires { session ≡ session_at_start session.setting 0 }
    ensures { PlaysInto (by S.took S.refused)
        (session_played (writing T.took T.refused text.old text.new) session
        (lines commands.now) (text.new ≡ text.old))
        sink.old result sink.new }
{
    let mut words = Counted::new(text);
    let watched = watch(session, commands, sink, &mut words);
    let _ = words.into_writer();
    watched
}

impl<T: Out> Plays for Watching<'_, T> {
    ghost playing = { watch_playing T.took T.refused };

    /// The frames of the session's run.
    fn total(&self) -> u32 {
        match &self.session {
            Some(session) => session.frames(),
            None => 0,
        }
    }

    /// Does the commands and goes on to the end of the run.
    fn play<S: Sink>(&mut self, sink: &mut S) -> Result<Outcome, CommandFault> {
        let session = self.session.take().unwrap();
        watch_new(session, self.commands, sink, &mut self.text)
    }
}
