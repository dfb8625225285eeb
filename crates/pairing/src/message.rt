//! Requests and replies among the packets of a capture.

ghost use Rattle.std.specs.Prelude.{◌≡◌, ◌<◌, length, position, IfSome};
ghost use Rattle.pairing.specs.Common.{bytes_eq, IsBytes, per_second, packet_shown, data_of};
ghost use Rattle.pairing.specs.Statement.{message_of_reply, message_in, message_of};
ghost use Rattle.pairing.specs.Message.{reply_from, server_at, requested_server, replying_server};

use crate::compact::CompactExchange;
use crate::index::Key;
use crate::refusal::{Refusal, accepted_distance};
use claim_file::Claim;
use ntp_packet::kinds::Packet;
use ntp_packet::{NTP_PORT, packet};
use pcap_reader::RecordHead;

/// The mode of a request (RFC 5905, section 7.3).
const CLIENT_MODE: u8 = 3;

/// The mode of a reply.
const SERVER_MODE: u8 = 4;

/// What a record says to the pairing.
#[derive(Clone, Copy)]
pub(crate) enum Message {
    /// A request with this key.
    Request(Key),
    /// A reply that its own header refuses.
    Refused(Refusal),
    /// A reply that its own header accepts. Its request may still come.
    Reply(CompactExchange),
}

/// Whether two addresses are the same, each compared as one number.
#[inline(always)]
fn is_same(a: [u8; 4], b: [u8; 4]) -> bool
    ensures { result ≡ bytes_eq a b }
{
    u32::from_be_bytes(a) == u32::from_be_bytes(b)
}

/// The place of this address among the servers'.
#[inline(always)]
fn place_of(servers: &[[u8; 4]], address: [u8; 4]) -> Option<usize>
    ensures place { result ≡ position (λ server. bytes_eq server address) servers.now }
    ensures within { IfSome result (λ place. place < length servers.now) }
{
    servers.iter().position(|server| is_same(*server, address))
}

/// The number of the server with this address.
#[inline(always)]
fn server_at(claim: &Claim, address: [u8; 4]) -> Option<u8>
    ensures { result ≡ server_at (data_of claim.now) address }
{
    let place = place_of(&claim.servers, address)?;
    Some(place as u8)
}

/// The server that a packet is a request to: a packet of mode 3 and version 4, from the client's
/// address to the server's, port 123.
#[inline(always)]
#[tactic(auto, unfolding(crate::specs::Message::requested_server))]
pub(crate) fn requested_server(claim: &Claim, packet: &Packet<'_>) -> Option<u8>
    ensures { result ≡ requested_server (data_of claim.now) (packet_shown packet.now) }
{
    let datagram = &packet.datagram;
    if !is_same(datagram.source, claim.client) || datagram.destination_port != NTP_PORT {
        return None;
    }
    if packet.header.mode() != CLIENT_MODE || packet.header.version() != 4 {
        return None;
    }
    server_at(claim, datagram.destination)
}

/// The server that a packet is a reply of: a packet of mode 4, from the server's address, port 123,
/// to the client's.
#[inline(always)]
#[tactic(auto, unfolding(crate::specs::Message::replying_server))]
pub(crate) fn replying_server(claim: &Claim, packet: &Packet<'_>) -> Option<u8>
    ensures { result ≡ replying_server (data_of claim.now) (packet_shown packet.now) }
{
    let datagram = &packet.datagram;
    if !is_same(datagram.destination, claim.client) || datagram.source_port != NTP_PORT {
        return None;
    }
    if packet.header.mode() != SERVER_MODE {
        return None;
    }
    server_at(claim, datagram.source)
}

/// What a reply of this server says.
#[inline(always)]
fn message_of_reply(server: u8, head: &RecordHead, packet: &Packet<'_>) -> Message
    requires { head.now.sub < per_second head.now.unit }
    ensures { result ≡ message_of_reply (reply_from head.now (packet_shown packet.now) server) }
{
    match accepted_distance(&packet.header) {
        Ok(distance) => Message::Reply(CompactExchange::new(server, head, packet, distance)),
        Err(refusal) => Message::Refused(refusal),
    }
}

/// What a packet says.
#[inline(always)]
fn message_in(claim: &Claim, head: &RecordHead, packet: &Packet<'_>) -> Option<Message>
    requires part_of_a_second { head.now.sub < per_second head.now.unit }
    ensures { result ≡ message_in (data_of claim.now) head.now (packet_shown packet.now) }
{
    if let Some(server) = requested_server(claim, packet) {
        return Some(Message::Request(Key {
            server,
            port: packet.datagram.source_port,
            stamp: packet.header.transmit(),
        }));
    }
    let server = replying_server(claim, packet)?;
    Some(message_of_reply(server, head, packet))
}

/// What a record says: a request, a reply, or nothing.
#[inline(always)]
#[tactic(auto, unfolding(crate::specs::Statement::message_of))]
pub(crate) fn read_message(claim: &Claim, head: &RecordHead, bytes: &[u8]) -> Option<Message>
    requires part_of_a_second { head.now.sub < per_second head.now.unit }
    ensures message { result
        ≡ message_of (data_of claim.now) (record { head = head.now; bytes = bytes.now }) }

    // A reader's bytes are bytes, which bounds what they say.
    ensures bytes { IsBytes bytes.now }
{
    message_in(claim, head, &packet(bytes)?)
}
