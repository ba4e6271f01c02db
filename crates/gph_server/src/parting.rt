//! The end of a connection.

use std::io::Read;
use std::net::{Shutdown, TcpStream};
use std::time::Duration;

// The seconds for which the client is waited for, each time.
const PATIENCE: u64 = 1;

// The blocks that are taken in at most.
const BLOCKS_MOST: usize = 256;

/// Tells the client that nothing more comes, and takes in what it has sent past its session: a socket that is closed with bytes
/// unread may drop the last replies.
pub(crate) fn part_from(stream: &TcpStream) {
    if stream.shutdown(Shutdown::Write).is_err() {
        return;
    }
    if stream
        .set_read_timeout(Some(Duration::from_secs(PATIENCE)))
        .is_err()
    {
        return;
    }
    let mut reader = stream;
    let mut block = [0; 4096];
    for _ in 0..BLOCKS_MOST {
        match reader.read(&mut block) {
            Ok(0) | Err(_) => return,
            Ok(_) => {}
        }
    }
}
