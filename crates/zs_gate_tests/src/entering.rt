//! Who hands a handler its items inside of a gate, and tells it that its callback has ended.
ghost use Rattle.std.specs.Prelude.{◌≡◌};

use std::alloc::AllocGlobal;
use std::process::Abort;
use std::sync::Wait;
use zs_gate::{Door, Drained, Gate, Inside};
use zs_handlers::{
    ChannelError, FifoChannel, FifoChannelHandler, FifoSender, Handled, Handler, RingChannel,
    RingChannelHandler, RingSender,
};

// One more inside of an open gate.
pub(crate) fn enter<R: Abort>(rt: &R, door: &mut Door) -> Inside
    ensures gate { door.new.gate ≡ door.old.gate }
    ensures inside { result ≡ door.old.gate }
{
    let pass = door.pass().expect(rt, "a pass");
    pass.enter().ok().expect(rt, "the gate is open")
}

// Inside of a callback's gate.
fn entered<R: AllocGlobal + Abort>(rt: &R) -> Inside {
    let (mut door, keeper) = Gate::open(rt.alloc()).expect(rt, "a gate");
    drop(keeper);
    enter(rt, &mut door)
}

// The end of a callback.
fn ended<R: AllocGlobal + Abort>(rt: &R) -> Drained {
    let (door, keeper) = Gate::open(rt.alloc()).expect(rt, "a gate");
    keeper.shut(door).ok().expect(rt, "no pass is out")
}

// Who calls a handler.
pub(crate) struct Caller {
    inside: Inside,
    drained: Drained,
}

impl Drop for Caller {
    /// Drops both parts. It is written out, so that no proof takes a caller apart where it goes.
    fn drop(self) {
        let Caller {
            inside: _,
            drained: _,
        } = self;
    }
}

impl Caller {
    /// Is inside of one gate, and knows that another one has drained: so it may call, and tell the end.
    pub(crate) fn new<R: AllocGlobal + Abort>(rt: &R) -> Caller {
        let inside = entered(rt);
        let drained = ended(rt);
        Caller { inside, drained }
    }

    /// What shows a handler that it is called inside of a gate.
    pub(crate) fn inside(&self) -> &Inside {
        &self.inside
    }

    // Whether the handler takes the item and loses none for it.
    pub(crate) fn hands<R: Wait, H: Handler<u64>>(&self, rt: &R, handler: &H, item: u64) -> bool {
        match handler.on(rt, &self.inside, item) {
            Handled::Taken(done) => {
                drop(done);
                true
            }
            Handled::Evicted(_, done) => {
                drop(done);
                false
            }
        }
    }

    // The callback has ended.
    pub(crate) fn ends<R: Wait, H: Handler<u64>>(&self, rt: &R, handler: &H) -> H::Done {
        handler.ended(rt, &self.drained)
    }
}

// Both ends of a channel, and who calls its sender.
pub(crate) struct Channel<S: Drop, C: Drop> {
    caller: Caller,
    sender: S,
    pub(crate) receiver: C,
}

pub(crate) type Fifo = Channel<FifoSender<u64>, FifoChannelHandler<u64>>;

pub(crate) type Ring = Channel<RingSender<u64>, RingChannelHandler<u64>>;

// A fifo of two items.
pub(crate) fn fifo<R: AllocGlobal + Abort>(rt: &R) -> Fifo {
    Channel::new(rt, FifoChannel::new(2).into_handler(rt.alloc()))
}

// A ring of two items.
pub(crate) fn ring<R: AllocGlobal + Abort>(rt: &R) -> Ring {
    Channel::new(rt, RingChannel::new(2).into_handler(rt.alloc()))
}

impl<S: Drop, C: Drop> Drop for Channel<S, C> {
    /// Drops the caller and both ends. It is written out for the same reason as that of a caller.
    fn drop(self) {
        let Channel {
            caller: _,
            sender: _,
            receiver: _,
        } = self;
    }
}

impl<S: Handler<u64> + Drop, C: Drop> Channel<S, C> {
    /// Both ends, and a caller of their own; there has to be memory for them.
    pub(crate) fn new<R: AllocGlobal + Abort>(
        rt: &R,
        ends: Result<(S, C), ChannelError>,
    ) -> Channel<S, C> {
        let (sender, receiver) = ends.expect(rt, "a channel");
        let caller = Caller::new(rt);
        Channel {
            caller,
            sender,
            receiver,
        }
    }

    // Whether the sender takes the item.
    pub(crate) fn takes<R: Wait>(&self, rt: &R, item: u64) -> bool {
        self.caller.hands(rt, &self.sender, item)
    }

    // The callback has ended.
    pub(crate) fn ends<R: Wait>(&self, rt: &R) {
        let _ = self.caller.ends(rt, &self.sender);
    }

    /// The receiver alone; the sender and its caller are gone.
    pub(crate) fn into_receiver(self) -> C {
        let Channel {
            caller,
            sender,
            receiver,
        } = self;
        drop(caller);
        drop(sender);
        receiver
    }
}
