//! Datagrams over the loopback address.

ghost use Rattle.std.specs.Prelude.{◌≡◌, ◌≤◌, length, Err, IfErr, IsSome, OnErr, OnOk};
ghost use Rattle.std.specs.declared.option.Option.TheVariants.{None};
ghost use Rattle.ab_io.specs.Datagrams.{FitsIn, longest_datagram};
ghost use Rattle.ab_io.specs.States.{Opens, Receives, Sends};
ghost use Rattle.ab_io.specs.declared.fault.Refused.TheVariants as refused;
ghost use Rattle.ab_io.specs.declared.link.Got.TheVariants as got;
ghost use Rattle.ab_net.specs.UdpLinks.{link_of, unopened};

use ab_io::{Failed, Got, LONGEST_DATAGRAM, Link, Refused};
use libc::net::{SO_RCVBUF, SOL_SOCKET, setsockopt};
use std::io::ErrorKind;
use std::marker::Model;
use std::net::{Ipv4Addr, Net, SocketAddrV4, UdpSocket};
use std::os::fd::AsRawFd;
use std::time::Duration;

/// How many bytes of receive buffer a socket asks for. The system gives twice that, or twice its own limit.
const RECEIVE_BUFFER: i32 = 8_388_608;

/// A socket on the loopback address, once it is open, how often it has failed, and how many datagrams it
/// has lost.
#[derive(Drop)]
pub struct UdpLink<R: Net + Drop> {
    net: R,
    socket: Option<UdpSocket>,
    faults: u64,
    losses: u64,
}

/// It is seen as its socket, once it is open, with its faults and its losses.
impl<R: Net + Drop> Model for UdpLink<R> {
    ghost use Rattle.ab_net.specs.UdpLinks.{UdpState};

    ghost Value = { UdpState };

    ghost view = { λ l. record { socket = l.socket; faults = l.faults; losses = l.losses } };
}

impl<R: Net + Drop> UdpLink<R> {
    /// A link that isn't open.
    pub fn new(net: R) -> Self
        ensures { result ≡ unopened }
    {
        UdpLink {
            net,
            socket: None,
            faults: 0,
            losses: 0,
        }
    }
}

/// A port of the loopback address 127.0.0.1. A socket that is bound to it takes what is sent to this address alone: nothing
/// from another machine, and nothing for another address of this one.
fn address(port: u16) -> SocketAddrV4 {
    SocketAddrV4::new(Ipv4Addr::LOCALHOST, port)
}

/// Asks that a long message, which comes as one burst, can wait in the socket until it is taken. If the system refuses, the
/// socket serves all the same: what is dropped then costs time, as any lost datagram does.
fn ask_for_room(socket: &UdpSocket) {
    let mut size = [0; 16];
    size[..4].copy_from_slice(&RECEIVE_BUFFER.to_ne_bytes());
    // std sets no receive buffer. The descriptor is open, since the socket is borrowed, and C reads four of the bytes.
    unsafe { setsockopt(socket.as_raw_fd(), SOL_SOCKET, SO_RCVBUF, &size, 4) };
}

/// What comes at a socket within so many milliseconds, but at least one, since a socket takes no wait
/// of none.
fn received(socket: &UdpSocket, buf: &mut [u8], wait_ms: u32) -> Got
    requires { longest_datagram ≤ length buf.old }
    ensures { FitsIn longest_datagram result }
{
    let wait = Duration::from_millis(u64::from(wait_ms.max(1)));
    if socket.set_read_timeout(Some(wait)).is_err() {
        return Got::Failed;
    }
    match socket.recv_from(&mut buf[..LONGEST_DATAGRAM]) {
        Ok((count, _)) => Got::Bytes(count.min(LONGEST_DATAGRAM)),
        Err(fault) => match fault.kind() {
            ErrorKind::WouldBlock | ErrorKind::TimedOut | ErrorKind::Interrupted => Got::Quiet,
            _ => Got::Failed,
        },
    }
}

impl<R: Net + Drop> Link for UdpLink<R> {
    ghost use Rattle.ab_net.specs.UdpLinks.{link_of};

    ghost state = { link_of };

    fn open(&mut self, port: u16) -> Result<(), Failed>
        ensures open { OnOk result (IsSome self.new.socket) }
        ensures err { OnErr result (self.new.socket ≡ self.old.socket) }
        ensures opens { Opens (link_of self.old) (link_of self.new) result }
    {
        match UdpSocket::bind(&self.net, address(port)) {
            Ok(socket) => {
                ask_for_room(&socket);
                self.socket = Some(socket);
                Ok(())
            }
            Err(_) => {
                self.faults = self.faults.saturating_add(1);
                Err(Failed)
            }
        }
    }

    /// Nothing comes before the port is open.
    fn recv(&mut self, buf: &mut [u8], wait_ms: u32) -> Got
        requires { longest_datagram ≤ length buf.old }
        ensures closed { self.old.socket ≡ None → result ≡ got.Failed }
        ensures socket { self.new.socket ≡ self.old.socket }
        ensures bound { FitsIn longest_datagram result }
        ensures receives { Receives (link_of self.old) (link_of self.new) result buf.new }
    {
        let got = match &self.socket {
            Some(socket) => received(socket, buf, wait_ms),
            None => Got::Failed,
        };
        if got == Got::Failed {
            self.faults = self.faults.saturating_add(1);
        }
        got
    }

    /// Nothing is sent before the port is open.
    fn send(&mut self, port: u16, bytes: &[u8]) -> Result<(), Refused>
        ensures closed { self.old.socket ≡ None → result ≡ Err refused.Failed }
        ensures refused { IfErr result (λ why. why ≡ refused.Failed) }
        ensures socket { self.new.socket ≡ self.old.socket }
        ensures sends { Sends (link_of self.old) (link_of self.new) result port bytes.now }
    {
        let sent = match &self.socket {
            Some(socket) => socket.send_to(bytes, address(port)).is_ok(),
            None => false,
        };
        if sent {
            return Ok(());
        }
        self.losses = self.losses.saturating_add(1);
        Err(Refused::Failed)
    }
}
