//! Where a name leads from a folder on: links are followed as long as they stay below that folder.

ghost use Rattle.std.specs.Prelude.{◌≡◌, ◌-◌, ◌<◌, ◌^◌, IfOk, IfSome, option_map};
ghost use Rattle.std.specs.Prelude.{string_bytes};
ghost use Rattle.pac_run_files.specs.Links.{Leads, depth_after};
ghost use Rattle.pac_run_files.specs.Names.{name_parts};
ghost use Rattle.pac_run_files.specs.LinksProofs.{Follows, MeetsPart, is_joined, links_past};

use crate::files::FileSystem;
use crate::names::begins_below;
use std::alloc::{AllocError, Global};

/// The most links that one name may lead through, as Linux has it.
const MOST_LINKS: u8 = 40;

/// How far a name was followed.
#[derive(Drop)]
pub(crate) struct PlaceReached {
    /// The path so far.
    path: String,
    /// How many folders it is below the first one.
    depth: usize,
}

/// What is met at a part of a name.
#[derive(Drop)]
enum Met {
    /// No link: the place is past the part.
    Past,
    /// The folder above the first one.
    Out,
    /// A link with this text.
    Link(String),
}

/// Where following the parts of a name rests.
#[derive(Drop)]
enum Rest<'a> {
    /// At its end.
    End,
    /// At a part that leads out.
    Out,
    /// At a link with this text, and the parts after it, if there are any.
    Link(String, Option<&'a str>),
}

/// How far below the first folder it is past a part; none where the part leads out.
fn depth_after(depth: usize, part: &str) -> Option<usize>
    requires { depth < 2 ^ 64 - 1 }
    ensures { result ≡ depth_after depth part.now }
{
    if part == ".." {
        return depth.checked_sub(1);
    }
    if part == "." || part.is_empty() {
        return Some(depth);
    }
    Some(depth + 1)
}

/// Looks at a part, and goes past it where it is no link.
fn meet<D: FileSystem>(
    alloc: Global,
    disk: &D,
    place: &mut PlaceReached,
    part: &str,
) -> Result<Met, AllocError>
    ensures { IfOk result (λ met. MeetsPart (D.finds disk.now).link place.old part.now met
        place.new) }
{
    if let Some(text) = disk.link(alloc, place.path.as_str(), part)? {
        return Ok(Met::Link(text));
    }
    if place.depth == usize::MAX {
        return Err(AllocError);
    }
    let Some(depth) = depth_after(place.depth, part) else {
        return Ok(Met::Out);
    };
    place.path.push_str("/")?;
    place.path.push_str(part)?;
    place.depth = depth;
    Ok(Met::Past)
}

/// Goes past the parts of a text, up to a link.
fn follow<'a, D: FileSystem>(
    alloc: Global,
    disk: &D,
    place: &mut PlaceReached,
    text: &'a str,
) -> Result<Rest<'a>, AllocError>
    ensures { IfOk result (λ rest. Follows (D.finds disk.now).link place.old (name_parts text.now)
        rest place.new) }
{
    let mut left = text;
    'parts: while let Some((part, more)) = left.split_once('/') {
        match meet(alloc, disk, place, part)? {
            Met::Past => left = more,
            Met::Out => return Ok(Rest::Out),
            Met::Link(link) => return Ok(Rest::Link(link, Some(more))),
        }
    }
    match meet(alloc, disk, place, left)? {
        Met::Past => Ok(Rest::End),
        Met::Out => Ok(Rest::Out),
        Met::Link(link) => Ok(Rest::Link(link, None)),
    }
}

/// A link's text, and the parts after it.
fn join(mut link: String, more: Option<&str>) -> Result<String, AllocError>
    ensures { IfOk result (λ joined. is_joined link more.entry (string_bytes joined)) }
{
    if let Some(more) = more {
        link.push_str("/")?;
        link.push_str(more)?;
    }
    Ok(link)
}

/// How many links there may be past one with this text; none where it can't be followed, since it is empty, absolute or one too many.
fn links_past(links: u8, link: &str) -> Option<u8>
    ensures left { result ≡ links_past links link.now }
    ensures fewer { IfSome result (λ left. left < links) }
{
    if !begins_below(link) {
        return None;
    }
    links.checked_sub(1)
}

/// The path to which a name leads from a folder on; none where it leads out of the folder.
pub(crate) fn lead<D: FileSystem>(
    alloc: Global,
    disk: &D,
    folder: &str,
    name: &str,
) -> Result<Option<String>, AllocError>
    ensures { IfOk result (λ path. Leads (D.finds disk.now).link folder.now name.now
        (option_map string_bytes path)) }
{
    let mut place = PlaceReached {
        path: String::from_str(alloc, folder)?,
        depth: 0,
    };
    let mut text = String::from_str(alloc, name)?;
    let mut links = MOST_LINKS;
    'links: loop {
        match follow(alloc, disk, &mut place, text.as_str())? {
            Rest::End => return Ok(Some(place.path)),
            Rest::Out => return Ok(None),
            Rest::Link(link, more) => {
                let Some(left) = links_past(links, link.as_str()) else {
                    return Ok(None);
                };
                links = left;
                text = join(link, more)?;
            }
        }
    }
}
