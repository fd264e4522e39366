//! The same calls over bare numbers, each state handed in and answered: for a program that keeps its states as values.
//! Bare numbers and slices come in, side by side: any program may call it, and every number is tested here.
ghost use Rattle.std.specs.Prelude.{◌≡◌};
ghost use Rattle.queue.specs.Form.{form_of};
ghost use Rattle.queue.specs.Answer.{seen, told};
ghost use Rattle.queue.specs.State.{rack, at_sender, at_receiver};
ghost use Rattle.queue.specs.Calls.{open_queue};
ghost use Rattle.queue.specs.Sender.{send_begin, send_step, send_cancel};
ghost use Rattle.queue.specs.Receiver.{receive_begin, receive_step, receive_cancel};

use crate::Form;
use queue::{Format, Receiver, Refusal, Sender};

/// What an opening answers: refused, both states are those that were handed in.
#[derive(Clone, Copy)]
pub struct Opened {
    pub ending: Result<(), Refusal>,
    pub sender: Sender,
    pub receiver: Receiver,
}

/// What a call of the sender answers: refused, the state is the one that was handed in.
#[derive(Clone, Copy)]
pub struct Sent {
    pub ending: Result<(), Refusal>,
    pub sender: Sender,
}

/// What a call of the receiver answers: refused, the state is the one that was handed in.
#[derive(Clone, Copy)]
pub struct Received {
    pub ending: Result<(), Refusal>,
    pub receiver: Receiver,
}

/// Open a queue: zeros, and nothing pending on either side. What was lent before does not matter; a refused opening
/// leaves it as it was.
#[tactic(auto, unfolding(queue::specs::Calls::open_queue))]
pub fn open(
    format: Format,
    bases: &[u16],
    queue: &mut [u8],
    sender: Sender,
    receiver: Receiver,
) -> Opened
    ensures { seen result.ending (rack queue.new result.sender result.receiver)
        ≡ told (rack queue.old sender receiver)
        (open_queue (form_of bases.now format) (rack queue.old sender receiver)) }
{
    let mut sent = sender;
    let mut received = receiver;
    let ending = match Form::new(format, bases) {
        Ok(form) => form.open(queue, &mut sent, &mut received),
        Err(why) => Err(why),
    };
    Opened {
        ending,
        sender: sent,
        receiver: received,
    }
}

/// Begin to send the record at an index.
pub fn send_begin(
    format: Format,
    bases: &[u16],
    queue: &[u8],
    sender: Sender,
    records: &[u8],
    index: usize,
) -> Sent
    ensures { seen result.ending (at_sender queue.now result.sender)
        ≡ told (at_sender queue.now sender)
        (send_begin (form_of bases.now format) records.now (at_sender queue.now sender) index) }
{
    let mut after = sender;
    let ending = match Form::new(format, bases) {
        Ok(form) => form.send_begin(queue, &mut after, records, index),
        Err(why) => Err(why),
    };
    Sent {
        ending,
        sender: after,
    }
}

/// One step of the sending: a digit gathered, a byte put, a digit written. A refused one leaves the queue as it was.
pub fn send_step(
    format: Format,
    bases: &[u16],
    queue: &mut [u8],
    sender: Sender,
    records: &[u8],
) -> Sent
    ensures { seen result.ending (at_sender queue.new result.sender)
        ≡ told (at_sender queue.old sender)
        (send_step (form_of bases.now format) records.now (at_sender queue.old sender)) }
{
    let mut after = sender;
    let ending = match Form::new(format, bases) {
        Ok(form) => form.send_step(queue, &mut after, records),
        Err(why) => Err(why),
    };
    Sent {
        ending,
        sender: after,
    }
}

/// Abandon a sending that has moved no byte.
pub fn send_cancel(
    format: Format,
    bases: &[u16],
    queue: &[u8],
    sender: Sender,
    records: &[u8],
) -> Sent
    ensures { seen result.ending (at_sender queue.now result.sender)
        ≡ told (at_sender queue.now sender)
        (send_cancel (form_of bases.now format) records.now (at_sender queue.now sender)) }
{
    let mut after = sender;
    let ending = match Form::new(format, bases) {
        Ok(form) => form.send_cancel(queue, &mut after, records),
        Err(why) => Err(why),
    };
    Sent {
        ending,
        sender: after,
    }
}

/// Begin to receive the next parcel.
pub fn receive_begin(
    format: Format,
    bases: &[u16],
    queue: &[u8],
    receiver: Receiver,
    buffer: &[u8],
) -> Received
    ensures { seen result.ending (at_receiver queue.now result.receiver buffer.now)
        ≡ told (at_receiver queue.now receiver buffer.now)
        (receive_begin (form_of bases.now format)
        (at_receiver queue.now receiver buffer.now)) }
{
    let mut after = receiver;
    let ending = match Form::new(format, bases) {
        Ok(form) => form.receive_begin(queue, &mut after, buffer),
        Err(why) => Err(why),
    };
    Received {
        ending,
        receiver: after,
    }
}

/// One step of the receiving: a digit gathered, a byte copied, a digit written. A refused one leaves queue and buffer
/// as they were.
pub fn receive_step(
    format: Format,
    bases: &[u16],
    queue: &mut [u8],
    receiver: Receiver,
    buffer: &mut [u8],
) -> Received
    ensures { seen result.ending (at_receiver queue.new result.receiver buffer.new)
        ≡ told (at_receiver queue.old receiver buffer.old)
        (receive_step (form_of bases.now format)
        (at_receiver queue.old receiver buffer.old)) }
{
    let mut after = receiver;
    let ending = match Form::new(format, bases) {
        Ok(form) => form.receive_step(queue, &mut after, buffer),
        Err(why) => Err(why),
    };
    Received {
        ending,
        receiver: after,
    }
}

/// Abandon a receiving that has copied no byte.
pub fn receive_cancel(
    format: Format,
    bases: &[u16],
    queue: &[u8],
    receiver: Receiver,
    buffer: &[u8],
) -> Received
    ensures { seen result.ending (at_receiver queue.now result.receiver buffer.now)
        ≡ told (at_receiver queue.now receiver buffer.now)
        (receive_cancel (form_of bases.now format)
        (at_receiver queue.now receiver buffer.now)) }
{
    let mut after = receiver;
    let ending = match Form::new(format, bases) {
        Ok(form) => form.receive_cancel(queue, &mut after, buffer),
        Err(why) => Err(why),
    };
    Received {
        ending,
        receiver: after,
    }
}
