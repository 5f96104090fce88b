//! Connections whose peer vanished without closing.

use libc::net::{
    IPPROTO_TCP, SO_KEEPALIVE, SOL_SOCKET, TCP_KEEPIDLE, TCP_KEEPINTVL, TCP_USER_TIMEOUT,
};
use std::os::fd::RawFd;

/// The longest silence, in seconds, before Linux probes a peer.
const LONGEST_IDLE: u64 = 32_767;

/// Makes a connection fail if its peer has acknowledged nothing for `time` milliseconds.
///
/// Linux probes the peer each second after half of that. If the system refuses the options, a
/// vanished peer is noticed later.
pub(crate) fn notice_vanished_peer(fd: RawFd, time: u64) {
    let idle = (time / 2_000).clamp(1, LONGEST_IDLE);
    let _ = unsafe { libc::net::setsockopt(fd, IPPROTO_TCP, TCP_KEEPIDLE, &spelled(idle), 4) };
    let _ = unsafe { libc::net::setsockopt(fd, IPPROTO_TCP, TCP_KEEPINTVL, &spelled(1), 4) };
    let _ = unsafe { libc::net::setsockopt(fd, IPPROTO_TCP, TCP_USER_TIMEOUT, &spelled(time), 4) };
    let _ = unsafe { libc::net::setsockopt(fd, SOL_SOCKET, SO_KEEPALIVE, &spelled(1), 4) };
}

fn spelled(number: u64) -> [u8; 16] {
    let [a, b, c, d] = u32::try_from(number).unwrap_or(u32::MAX).to_ne_bytes();
    [a, b, c, d, 0, 0, 0, 0, 0, 0, 0, 0, 0, 0, 0, 0]
}
