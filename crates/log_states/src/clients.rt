// Clients, and how many offers each has made.

ghost use Rattle.std.specs.Prelude.{◌+◌, ◌≡◌, ◌≤◌, IfOk, length, map};
ghost use Rattle.log_states.specs.Clients as clients;

use spec_core::memory::Memory;
use std::alloc::Global;

/// A client.
#[derive(Clone, Copy)]
pub struct Client {
    /// Its number, from 1.
    pub number: u32,
    /// Whether it is open.
    pub is_open: bool,
    /// How many offers it has made.
    pub made: u64,
}

/// So many clients, with the numbers from this one on, open and without offers.
pub fn new_clients(alloc: Global, first: u32, count: u32) -> Result<Vec<Client>, Memory>
    requires numbers { first + count ≤ 4294967295 }
    ensures { IfOk result (λ cs. cs.items ≡ map clients.new_client (clients.numbers_from first count)) }
{
    if count == 0 {
        return Ok(Vec::new(alloc));
    }
    let mut later = new_clients(alloc, first + 1, count - 1)?;
    later.insert(
        0,
        Client {
            number: first,
            is_open: true,
            made: 0,
        },
    )?;
    Ok(later)
}

/// Whether the client is open.
pub fn is_open(all: &[Client], number: u32) -> bool
    ensures { result ≡ clients.is_open_among all.now number }
{
    match all {
        [] => false,
        [first, rest @ ..] => first.is_open && first.number == number || is_open(rest, number),
    }
}

/// How many are open.
pub fn count_open(all: &[Client]) -> usize
    ensures count { result ≡ length (clients.open_among all.now) }
    ensures few { result ≤ length all.now }
{
    match all {
        [] => 0,
        [first, rest @ ..] => {
            if first.is_open {
                count_open(rest) + 1
            } else {
                count_open(rest)
            }
        }
    }
}

/// How many offers the client has made, none where there is no such client.
pub fn made(all: &[Client], number: u32) -> u64
    ensures { result ≡ clients.made_by all.now number }
{
    match all {
        [] => 0,
        [first, rest @ ..] => {
            if number == first.number {
                first.made
            } else {
                made(rest, number)
            }
        }
    }
}

fn closed(client: Client, number: u32) -> Client
    ensures { result ≡ clients.closed number client }
{
    if client.number == number {
        Client {
            number: client.number,
            is_open: false,
            made: client.made,
        }
    } else {
        client
    }
}

fn having_made(client: Client, number: u32, count: u64) -> Client
    ensures { result ≡ clients.having_made number count client }
{
    if client.number == number {
        Client {
            number: client.number,
            is_open: client.is_open,
            made: count,
        }
    } else {
        client
    }
}

/// The clients, where this one isn't open any more.
pub fn without(alloc: Global, all: &[Client], number: u32) -> Result<Vec<Client>, Memory>
    ensures { IfOk result (λ cs. cs.items ≡ map (clients.closed number) all.now) }
{
    let mut left = Vec::new(alloc);
    for client in all {
        left.push(closed(*client, number))?;
    }
    Ok(left)
}

/// The clients, where this one has made so many offers.
pub fn with_made(
    alloc: Global,
    all: &[Client],
    number: u32,
    count: u64,
) -> Result<Vec<Client>, Memory>
    ensures { IfOk result (λ cs. cs.items ≡ map (clients.having_made number count) all.now) }
{
    let mut left = Vec::new(alloc);
    for client in all {
        left.push(having_made(*client, number, count))?;
    }
    Ok(left)
}
