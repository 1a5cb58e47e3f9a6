// The hosts against the script, and as the places of a run.
ghost use Rattle.std.specs.Prelude.{◌≡◌, ◌*◌, ◌/◌, [], IfOk, OnErr, OnOk, replicate};
ghost use Rattle.nvm_model.specs.Medium.{HaveSize, sizes_in};
ghost use Rattle.nvm_model.specs.ScriptText.{IsHead};
ghost use Rattle.nvm_model.specs.declared.run.Side.TheVariants.{Source, Destination};
ghost use Rattle.nvm_blocks.specs.Namespace.{media_of};
ghost use Rattle.session.specs.Shelves.{IsNamespaceOf};
ghost use Rattle.engine.specs.Claims.{IsAsBefore};
ghost use Rattle.engine.specs.Opened.{IsOpened};
ghost use Rattle.engine.specs.Sizes.{sizes_of, first_difference};

use crate::room::{make_controller, make_ram};
use guest_ram::Host;
use mig_base::OutOfMemory;
use mig_medium::Medium;
use nvm_blocks::Namespace;
use nvm_model::Side;
use script::Head;
use session::Place;
use std::alloc::Global;
use std::mem::replace;

/// The first size of a host that differs from what is asked: what it has, and what is asked.
pub(crate) fn host_difference<M: Medium>(
    host: &Host<M>,
    count: u64,
    shelf: u64,
) -> Option<(u64, u64)>
    ensures first { result ≡ first_difference (sizes_of (sizes_in M.state host.now.shelves.items) count shelf) }
{
    let shelves = host.shelves.len() as u64;
    if shelves != count {
        return Some((shelves, count));
    }
    for medium in &host.shelves {
        let size = u64::from(medium.len());
        if size != shelf {
            return Some((size, shelf));
        }
    }
    None
}

/// Opens both hosts as places for a script with this head. The hosts' media go into them.
///
/// # Errors
///
/// `OutOfMemory` where there is no memory for that. Both hosts then are as they were.
pub(crate) fn open_places<M: Medium>(
    alloc: Global,
    head: &Head,
    from: &mut Host<M>,
    to: &mut Host<M>,
) -> Result<(Place<M>, Place<M>), OutOfMemory>
    requires head { IsHead head.now }
    requires sizes { sizes_in M.state from.old.shelves.items
        ≡ replicate (head.now.blocks / head.now.shelf) head.now.shelf }
    requires to_sizes { sizes_in M.state to.old.shelves.items
        ≡ replicate (head.now.blocks / head.now.shelf) head.now.shelf }
    ensures opened { IfOk result (λ x. IsOpened M.state Source head.now from.old.shelves.items x.0
        × IsOpened M.state Destination head.now to.old.shelves.items x.1) }
    ensures taken { OnOk result ((from.new.shelves.items ≡ []) × (to.new.shelves.items ≡ [])) }
    ensures back { OnErr result (IsAsBefore from.old from.new × IsAsBefore to.old to.new) }
{
    let source = match open_place(alloc, head, Side::Source, from) {
        Ok(place) => place,
        Err(OutOfMemory) => return Err(OutOfMemory),
    };
    match open_place(alloc, head, Side::Destination, to) {
        Ok(destination) => Ok((source, destination)),
        Err(OutOfMemory) => {
            let (namespace, _, _) = source.shut();
            give_back(from, namespace.into_media());
            Err(OutOfMemory)
        }
    }
}

/// Opens a host as the place of a side.
fn open_place<M: Medium>(
    alloc: Global,
    head: &Head,
    side: Side,
    host: &mut Host<M>,
) -> Result<Place<M>, OutOfMemory>
    requires head { IsHead head.now }
    requires sizes { sizes_in M.state host.old.shelves.items
        ≡ replicate (head.now.blocks / head.now.shelf) head.now.shelf }
    ensures opened { IfOk result (IsOpened M.state side head.now host.old.shelves.items) }
    ensures taken { OnOk result (host.new.shelves.items ≡ []) }
    ensures back { OnErr result (host.new.shelves.items ≡ host.old.shelves.items) }
    ensures ram { host.new.ram ≡ host.old.ram }
{
    let ram = make_ram(alloc, head)?;
    let controller = make_controller(alloc, head, side)?;
    let namespace = take_namespace(alloc, head, host)?;
    Ok(Place::open(namespace, ram, controller))
}

/// The most entries that a turn leaves in a shelf: each of its commands has at most one piece there.
fn entries_of_turn(head: &Head) -> usize
    ensures { result ≡ head.now.burst * head.now.lanes }
{
    head.burst as usize * usize::from(head.lanes)
}

/// Takes the media of a host, in their order, as a namespace.
fn take_namespace<M: Medium>(
    alloc: Global,
    head: &Head,
    host: &mut Host<M>,
) -> Result<Namespace<M>, OutOfMemory>
    requires head { IsHead head.now }
    requires sizes { sizes_in M.state host.old.shelves.items
        ≡ replicate (head.now.blocks / head.now.shelf) head.now.shelf }
    ensures media { IfOk result (λ n. IsNamespaceOf head.now n × (media_of n ≡ host.old.shelves.items)
        × HaveSize M.state head.now.shelf (media_of n)) }
    ensures taken { OnOk result (host.new.shelves.items ≡ []) }
    ensures back { OnErr result (host.new.shelves.items ≡ host.old.shelves.items) }
    ensures ram { host.new.ram ≡ host.old.ram }
{
    let media = replace(&mut host.shelves, Vec::new(alloc));
    match Namespace::make(alloc, media, head.shelf, entries_of_turn(head)) {
        Ok(namespace) => {
            namespace.has_sizes();
            Ok(namespace)
        }
        Err(media) => {
            give_back(host, media);
            Err(OutOfMemory)
        }
    }
}

/// Gives a host the media and the memory of a place.
pub(crate) fn shut_place<M: Medium>(host: &mut Host<M>, place: Place<M>)
    requires { host.old.shelves.items ≡ [] }
    ensures shelves { host.new.shelves.items ≡ media_of place.namespace }
    ensures ram { host.new.ram ≡ place.windows }
{
    let (namespace, ram, _) = place.shut();
    give_back(host, namespace.into_media());
    host.ram = ram;
}

/// Gives a host its media back, which were taken.
fn give_back<M>(host: &mut Host<M>, media: Vec<M>)
    requires { host.old.shelves.items ≡ [] }
    ensures shelves { host.new.shelves.items ≡ media.items }
    ensures ram { host.new.ram ≡ host.old.ram }
{
    replace(&mut host.shelves, media).destroy_empty();
}
