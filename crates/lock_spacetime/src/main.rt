//! The program that draws runs of the lock service: `spacetime` with another service and its words.
//! A schedule on standard input, a picture as SVG on standard output.
//!
//! What is proved of drawing is said at the head of `drawing`; of `main`, only that it is safe and
//! ends. The pictures are tested (`checks/stories.sh`, `checks/pictures.sh`). In the stored run,
//! `stdin` and `stdout` beside `src/`, ann is granted a lock, a release by another token is refused,
//! and two ops are none. The story of `lock_service` is drawn in `examples/`.
//!
//! Begin to read at `drawing::run_program`.
#![tactic(auto)]

use drawing::run_program;
use lock_host::LockHost;
use lock_text::LockText;
use std::process::ExitCode;

const USAGE_LINE: &str = "usage: lock_spacetime < SCHEDULE > PICTURE";

fn main(rt: HostRuntime) -> ExitCode {
    ExitCode::from(run_program::<LockHost, LockText, _>(&rt, USAGE_LINE) as u8)
}
