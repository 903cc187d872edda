//! What is due is offered to a sink.

ghost use Rattle.std.specs.Prelude.{◌≡◌, None, false};
ghost use Rattle.pac_board.specs.CallsProofs.{OffersDue, OffersPart};
ghost use Rattle.pac_board.specs.SinksLaws.{by, offered_image};
ghost use Rattle.pac_board.specs.State.{sounds_of, shows_of};

use crate::sink::{Refused, Sink};
use pac_machine::Due;
use pac_picture::Picture;

/// Offers what is due to a sink, the sample before this picture, and keeps what it refuses, with what comes after it.
#[inline(always)]
pub(crate) fn offer<S: Sink>(due: &mut Due, picture: &Picture, sink: &mut S) -> Result<(), Refused>
    ensures { OffersDue (by S.took S.refused)
        (offered_image picture.now) due.old sink.old result due.new sink.new }
{
    offer_sample(due, sink)?;
    offer_picture(due, picture, sink)
}

/// Offers the sample, where one is due.
#[inline(always)]
fn offer_sample<S: Sink>(due: &mut Due, sink: &mut S) -> Result<(), Refused>
    ensures { OffersPart (by S.took S.refused) (sounds_of due.old.sample) due.old
        (record due.old { sample = None }) sink.old result due.new sink.new }
{
    if let Some(sample) = due.sample {
        sink.sample(sample)?;
        due.sample = None;
    }
    Ok(())
}

/// Offers this picture, where it is due.
#[inline(always)]
fn offer_picture<S: Sink>(due: &mut Due, picture: &Picture, sink: &mut S) -> Result<(), Refused>
    ensures { OffersPart (by S.took S.refused)
        (shows_of (offered_image picture.now) due.old.picture) due.old
        (record due.old { picture = false }) sink.old result due.new sink.new }
{
    if due.picture {
        sink.picture(picture)?;
        due.picture = false;
    }
    Ok(())
}
