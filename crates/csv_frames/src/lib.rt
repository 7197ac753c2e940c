// Quotes from a spreadsheet: how a file is cut, which lines fit, what spells quotes, and the frames of the lines of a file, if every line fits.
#![tactic(auto)]

ghost use Rattle.std.specs.Prelude.{◌≡◌, ◌+◌, ◌*◌, ◌≤◌, ◌<◌, length, drop};
ghost use Rattle.lists.specs.Lists.{laid};
ghost use Rattle.csv_frames.specs.Lines.{lines};
ghost use Rattle.csv_frames.specs.Imports.{frames_of, refusal_of, Imports};
ghost use Rattle.csv_frames.specs.Reading.{line_ends, behind_end, LineAt, judgement, Ready};

use frames::Message;
use line_fields::{Scanned, read_fields};
use refusals::Refusal;

// Why a file was not imported; a line that does not fit is named by its number from 1.
#[derive(Clone, Copy)]
pub enum NotImported {
    Settings,
    MalformedLine(usize),
    ShortOutput,
}

impl From<NotImported> for Refusal {
    ghost from_gives = { λ reason refusal. refusal ≡ refusal_of reason };

    // The refusal that the reason is.
    fn from(reason: NotImported) -> Refusal {
        match reason {
            NotImported::Settings => Refusal::Settings,
            NotImported::MalformedLine(_) => Refusal::MalformedLine,
            NotImported::ShortOutput => Refusal::ShortOutput,
        }
    }
}

// A line of a file: its numbers, and where the next begins.
#[derive(Clone, Copy)]
struct Line {
    numbers: [u32; 6],
    next: usize,
}

// Whether a line ends in front of these bytes: there are none, or CR LF stands at their front.
#[tactic(auto, using(crate::proofs::LineLaws::ends_by))]
fn line_ends(rest: &[u8]) -> bool
    ensures { result ≡ line_ends rest.now }
{
    matches!(rest, [] | [b'\r', b'\n', ..])
}

// The place behind CR LF, or the end of the file.
#[tactic(auto, unfolding(crate::specs::Reading::behind_end))]
fn behind(file: &[u8], end: usize) -> usize
    requires { end ≤ length file.now }
    ensures { result ≡ behind_end file.now end }
{
    file.len().min(end + 2)
}

// Reads the line that begins at a place, if it fits.
#[inline(always)]
fn line_at(d: u32, file: &[u8], place: usize) -> Option<Line>
    requires { place < length file.now }
    ensures { LineAt d file.now place result }
{
    let Scanned { fields, end } = read_fields(file, place, b',', true);
    let numbers = fields.numbers_if(d as usize)?;
    if !line_ends(&file[end..]) {
        return None;
    }
    Some(Line {
        numbers,
        next: behind(file, end),
    })
}

// How many lines a file has, or the first that does not fit.
fn judge(d: u32, file: &[u8]) -> Result<usize, NotImported>
    ensures { result ≡ judgement d file.now }
{
    // No `for`: the next line begins where this one was read to end.
    let mut place: usize = 0;
    let mut lines: usize = 0;
    while place < file.len() {
        lines += 1;
        let Some(line) = line_at(d, file, place) else {
            return Err(NotImported::MalformedLine(lines));
        };
        place = line.next;
    }
    Ok(lines)
}

// Lays the frames of a file's lines, and tells how many bytes they have.
fn write_frames(d: u32, file: &[u8], out: &mut [u8]) -> usize
    requires { Ready d file.now out.old }
    ensures { (result ≡ length (frames_of d (lines file.now)))
        × (out.new ≡ laid (frames_of d (lines file.now)) out.old) }
{
    // No `for` here either, for the same reason.
    let mut at: usize = 0;
    let mut used: usize = 0;
    while at < file.len() {
        let Some(line) = line_at(d, file, at) else {
            return used;
        };
        let written = frame_writer::write(Message::Quote(d as u8), line.numbers, &mut out[used..]);
        used += written.unwrap_or(0);
        at = line.next;
    }
    used
}

// Imports a file of quotes of d columns into the front of the output, and tells how many bytes: 3, then 18 with the first line that does not
// fit, then 13.
pub fn import(d: u32, file: &[u8], out: &mut [u8]) -> Result<usize, NotImported>
    ensures { Imports d file.now out.old result out.new }
{
    if d < 1 || 6 < d {
        return Err(NotImported::Settings);
    }
    let lines = judge(d, file)?;
    if out.len() / (1 + 4 * d as usize) < lines {
        return Err(NotImported::ShortOutput);
    }
    Ok(write_frames(d, file, out))
}
