// The tape printer: plays the tape on standard input, and prints it on standard output. It keeps one piece of the tape at a time.
#![tactic(auto)]

use head::Head;
use streams::Outlet;
use table_starts::{SLIDING_CELLS, SLIDING_PLACES, Start};
use tape_pieces::play_piece;
use tape_playback::Playback;
use tape_streams::{flush, refill};

// How many bytes of text are gathered before they are written out.
const GATHERED: usize = 65536;

// How many bytes of a tape are kept at a time.
const PIECE: usize = 65536;

fn main(rt: HostRuntime) {
    let mut columns = [0u32; SLIDING_CELLS];
    let mut positions = [0u32; SLIDING_PLACES];
    let mut lower_ends = [0u32; SLIDING_PLACES];
    let mut upper_ends = [0u32; SLIDING_PLACES];
    let mut bytes = [0u8; tape::CHANGE_BYTES];
    let mut tape = [0u8; PIECE];
    let mut text = [0u8; GATHERED + tape_steps::STEP_BYTES];
    let mut playback = Playback {
        head: Head::fresh(0, 0, 0),
        watches: [0; 8],
        start: Start { row: 0, cell: 0 },
        place: 0,
        end: 0,
        used: 0,
        ended: false,
        over: false,
    };
    let mut input = rt.stdin();
    let mut outlet = Outlet {
        output: rt.stdout(),
        errors: rt.stderr(),
    };
    for _ in 0..u64::MAX {
        if playback.over {
            break;
        }
        playback = refill(
            flush(playback, &text, &mut outlet),
            &mut tape,
            &mut input,
            &mut outlet.errors,
        );
        let end = playback.end;
        playback = play_piece(
            playback,
            &tape[..end],
            &mut columns,
            &mut positions,
            &mut lower_ends,
            &mut upper_ends,
            &mut bytes,
            &mut text,
        );
    }
    flush(playback, &text, &mut outlet);
}
