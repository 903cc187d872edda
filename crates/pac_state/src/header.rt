//! What is wrong with a file before any field of the state is looked at.

ghost use Rattle.std.specs.Prelude.{◌≡◌, ◌+◌, ◌≤◌, length};
ghost use Rattle.pac_state.specs.Reading as read;
ghost use Rattle.pac_state.specs.Saved as saved;

use crate::fault::LoadFault;
use crate::sizes::{BODY_SIZE, FILE_SIZE};
use sha1::Sha1;

/// The first 8 bytes of each state file.
pub(crate) const MAGIC: &[u8; 8] = b"PACSTATE";

/// The version that is written.
pub(crate) const VERSION: u16 = 2;

/// The N bytes from a place on.
#[inline]
pub(crate) fn part<const N: usize>(bytes: &[u8], at: usize) -> &[u8; N]
    requires { at + N ≤ length bytes.now }
    ensures { result.now ≡ read.bytes_at_place at N bytes.now }
{
    bytes[at..].first_chunk().unwrap()
}

/// The number of two bytes at a place.
#[inline]
pub(crate) fn word(bytes: &[u8], at: usize) -> u16
    requires { at + 2 ≤ length bytes.now }
    ensures { result ≡ read.saved_word_at at bytes.now }
{
    u16::from_le_bytes(*part(bytes, at))
}

/// The number of four bytes at a place.
#[inline]
pub(crate) fn double_word(bytes: &[u8], at: usize) -> u32
    requires { at + 4 ≤ length bytes.now }
    ensures { result ≡ read.saved_double_word_at at bytes.now }
{
    u32::from_le_bytes(*part(bytes, at))
}

/// The number of eight bytes at a place.
#[inline]
pub(crate) fn long_word(bytes: &[u8], at: usize) -> u64
    requires { at + 8 ≤ length bytes.now }
    ensures { result ≡ read.saved_long_word_at at bytes.now }
{
    u64::from_le_bytes(*part(bytes, at))
}

/// Whether what is there of the first 8 bytes is what each file begins with.
fn begins(bytes: &[u8]) -> bool
    ensures { result ≡ saved.begins_with_magic bytes.now }
{
    let there = bytes.len().min(8);
    bytes[..there] == MAGIC[..there]
}

/// Whether a version is known.
fn is_known(version: u16) -> bool
    ensures { result ≡ saved.is_known version }
{
    version == 1 || version == 2
}

/// Whether the digest at the end of a file is that of the bytes before.
fn is_sealed(bytes: &[u8]) -> bool
    requires { length bytes.now ≡ saved.file_size }
    ensures { result ≡ saved.is_sealed bytes.now }
{
    let (before, digest) = bytes.split_at(BODY_SIZE);
    let computed = Sha1::digest(before);
    &computed[..] == digest
}

/// Whether a file is of a board whose ROM set has this digest.
fn is_of(digest: &[u8; 20], bytes: &[u8]) -> bool
    requires { length bytes.now ≡ saved.file_size }
    ensures { result ≡ saved.is_of_set digest.now bytes.now }
{
    *digest == *part(bytes, 10)
}

/// Whether the version is there, and is not one that is known.
fn is_of_another_version(bytes: &[u8]) -> bool
    ensures { result ≡ saved.is_of_another_version bytes.now }
{
    bytes.len() >= 10 && !is_known(word(bytes, 8))
}

/// The first of V1, V2, V3, V5 and V6 that holds of a file, for a ROM set of this digest.
pub(crate) fn fault_of(digest: &[u8; 20], bytes: &[u8]) -> Option<LoadFault>
    ensures { result ≡ saved.load_fault digest.now bytes.now }
{
    if !begins(bytes) {
        Some(LoadFault::NoState)
    } else if is_of_another_version(bytes) {
        Some(LoadFault::OtherVersion)
    } else if bytes.len() != FILE_SIZE {
        Some(LoadFault::Size)
    } else if !is_sealed(bytes) {
        Some(LoadFault::Damaged)
    } else if !is_of(digest, bytes) {
        Some(LoadFault::OtherSet)
    } else {
        None
    }
}
