//! The header of a frame: its first 28 bytes in version 1, 32 in version 2.

ghost use Rattle.std.specs.Prelude.{◌≡◌, ◌≤◌, ◌<◌, ◌^◌, ◌++◌, length, IfOk, OnOk};
ghost use Rattle.byteorder.specs.Endian.{big_bytes};
ghost use Rattle.nob_frame.specs.Versions.{header_length, session_at, is_session};
ghost use Rattle.nob_frame.specs.Spelling.{marks, numbers, heading, header_of};
ghost use Rattle.nob_frame.specs.Reading.{is_seq, is_length, kind_at, numbers_at, sound, header_at};
ghost use Rattle.nob_frame.specs.Streams.{wanted_by};

use crate::fault::FrameFault;
use crate::frame::{Frame, FrameKind};
use crate::version::Version;
use byteorder::{BigEndian, ByteOrder};
use nob_bytes::{u16_at, u32_at, u64_at};
use nob_ids::SpaceId;
use std::alloc::{AllocError, Global};

/// How many bytes of a header both versions have.
const COMMON_LEN: usize = 28;

/// The byte that every frame begins with.
const MAGIC: u8 = 0x4e;

/// The flags: none is in use.
const NO_FLAGS: u8 = 0;

/// The greatest number of an item.
const LAST_ITEM: u64 = 1 << 40;

/// The greatest length of an item in bytes.
const LONGEST_ITEM: usize = 16_384;

/// What a header says.
#[derive(Clone, Copy, Debug, PartialEq, Eq)]
pub(crate) struct Header {
    pub(crate) kind: FrameKind,
    pub(crate) from: SpaceId,
    pub(crate) to: SpaceId,
    /// The number of the session, which a header of version 1 doesn't name.
    pub(crate) session: u32,
    pub(crate) seq: u64,
    pub(crate) ack: u64,
    /// How many bytes the payload has.
    pub(crate) length: usize,
}

impl Header {
    /// The header of a frame, whether or not it has a spelling.
    pub(crate) fn of(frame: &Frame) -> Header
        ensures { result ≡ header_of frame.now }
    {
        Header {
            kind: frame.kind,
            from: frame.from,
            to: frame.to,
            session: frame.session,
            seq: frame.seq,
            ack: frame.ack,
            length: frame.payload.len(),
        }
    }

    /// The header itself, or the first of F6 to F9, then F12, that it is refused for.
    #[tactic(auto, unfolding(crate::specs::Reading::sound))]
    pub(crate) fn judged(self, version: Version) -> Result<Header, FrameFault>
        ensures exact { result ≡ sound version self }
        ensures same { IfOk result (λ header. header ≡ self) }
        ensures short { IfOk result (λ header. header.length ≤ 16384) }
    {
        if self.from.get() == self.to.get() {
            return Err(FrameFault::Spaces);
        }
        if !seq_fits(self.kind, self.seq) {
            return Err(FrameFault::Seq);
        }
        if self.ack < 1 || self.ack > LAST_ITEM + 1 {
            return Err(FrameFault::Ack);
        }
        if !length_fits(self.kind, self.length) {
            return Err(FrameFault::Length);
        }
        if !session_fits(version, self.session) {
            return Err(FrameFault::Session);
        }
        Ok(self)
    }
}

/// Whether the version has a spelling for the number of this session.
fn session_fits(version: Version, session: u32) -> bool
    ensures { result ≡ is_session version session }
{
    match version {
        Version::One => session == 1,
        Version::Two => session >= 1,
    }
}

/// Whether a frame of this kind may have this item's number.
fn seq_fits(kind: FrameKind, seq: u64) -> bool
    ensures { result ≡ is_seq kind seq }
{
    match kind {
        FrameKind::Data => seq >= 1 && seq <= LAST_ITEM,
        FrameKind::Ack | FrameKind::Close => seq == 0,
    }
}

/// Whether the payload of a frame of this kind may have this length.
fn length_fits(kind: FrameKind, length: usize) -> bool
    ensures { result ≡ is_length kind length }
{
    match kind {
        FrameKind::Data => length >= 1 && length <= LONGEST_ITEM,
        FrameKind::Ack => length == 0,
        FrameKind::Close => length == 1,
    }
}

/// The kind that the first four bytes say, or the first of F2 to F5.
#[tactic(auto, unfolding(crate::specs::Reading::kind_at))]
fn kind_from(version: Version, bytes: &[u8]) -> Result<FrameKind, FrameFault>
    requires { 4 ≤ length bytes.now }
    ensures { result ≡ kind_at version bytes.now }
{
    if bytes[0] != MAGIC {
        return Err(FrameFault::Magic);
    }
    if bytes[1] != version.number() {
        return Err(FrameFault::Version);
    }
    let Some(kind) = FrameKind::from_number(bytes[2]) else {
        return Err(FrameFault::Kind);
    };
    if bytes[3] != NO_FLAGS {
        return Err(FrameFault::Flags);
    }
    Ok(kind)
}

/// The number of the session that a header's bytes name: version 1 names none, and means the first.
fn session_from(version: Version, bytes: &[u8]) -> u32
    requires { header_length version ≤ length bytes.now }
    ensures { result ≡ session_at version bytes.now }
{
    match version {
        Version::One => 1,
        Version::Two => u32_at(bytes, COMMON_LEN),
    }
}

/// A header of this kind with the numbers that follow its marks, or the first of F6 to F9, then
/// F12.
#[tactic(auto, unfolding(crate::specs::Reading::sound))]
fn numbered(version: Version, kind: FrameKind, bytes: &[u8]) -> Result<Header, FrameFault>
    requires { header_length version ≤ length bytes.now }
    ensures { result ≡ sound version (numbers_at version kind bytes.now) }
{
    let Some(from) = SpaceId::new(u16_at(bytes, 4)) else {
        return Err(FrameFault::Spaces);
    };
    let Some(to) = SpaceId::new(u16_at(bytes, 6)) else {
        return Err(FrameFault::Spaces);
    };
    let header = Header {
        kind,
        from,
        to,
        session: session_from(version, bytes),
        seq: u64_at(bytes, 8),
        ack: u64_at(bytes, 16),
        length: u32_at(bytes, 24) as usize,
    };
    header.judged(version)
}

/// The header at the front of the bytes, or the first of F1 to F9, then F12.
#[tactic(auto, unfolding(crate::specs::Reading::header_at))]
pub(crate) fn header_from(version: Version, bytes: &[u8]) -> Result<Header, FrameFault>
    ensures exact { result ≡ header_at version bytes.now }
    ensures whole { OnOk result (header_length version ≤ length bytes.now) }
{
    if bytes.len() < version.header_len() {
        return Err(FrameFault::Short);
    }
    let kind = kind_from(version, bytes)?;
    numbered(version, kind, bytes)
}

/// How many bytes there have to be before it can be said whether the frame of version 2 at their
/// front is whole.
pub(crate) fn wanted_from(bytes: &[u8]) -> usize
    ensures { result ≡ wanted_by bytes.now }
{
    let header_len = Version::Two.header_len();
    if bytes.len() >= header_len {
        return header_len + u32_at(bytes, 24) as usize;
    }
    header_len
}

/// The bytes of a header that both versions have.
fn common_bytes(version: Version, header: Header) -> [u8; COMMON_LEN]
    requires { header.length < 2 ^ 32 }
    ensures { result ≡ marks version header.kind ++ numbers header }
{
    let mut bytes = [0; COMMON_LEN];
    bytes[0] = MAGIC;
    bytes[1] = version.number();
    bytes[2] = header.kind.number();
    bytes[3] = NO_FLAGS;
    BigEndian::write_u16(&mut bytes[4..], header.from.get());
    BigEndian::write_u16(&mut bytes[6..], header.to.get());
    BigEndian::write_u64(&mut bytes[8..], header.seq);
    BigEndian::write_u64(&mut bytes[16..], header.ack);
    BigEndian::write_u32(&mut bytes[24..], header.length as u32);
    bytes
}

/// The bytes of a session's number.
fn number_bytes(session: u32) -> [u8; 4]
    ensures { result ≡ big_bytes 4 session }
{
    let mut bytes = [0; 4];
    BigEndian::write_u32(&mut bytes, session);
    bytes
}

/// The bytes of a header, with room for what follows it. Only memory fails it.
#[tactic(auto, unfolding(crate::specs::Spelling::heading))]
pub(crate) fn header_bytes(
    alloc: Global,
    version: Version,
    header: Header,
) -> Result<Vec<u8>, AllocError>
    requires { header.length ≤ 16384 }
    ensures { IfOk result (λ bytes. bytes.items ≡ heading version header) }
{
    let session = number_bytes(header.session);
    let mut bytes = Vec::with_capacity(alloc, version.header_len() + header.length)?;
    bytes.extend_from_slice(&common_bytes(version, header))?;
    match version {
        Version::One => Ok(bytes),
        Version::Two => {
            bytes.extend_from_slice(&session)?;
            Ok(bytes)
        }
    }
}
