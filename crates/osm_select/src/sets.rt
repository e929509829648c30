//! The ids that a holding task keeps, over all items that it holds.
ghost use Rattle.std.specs.Prelude.{◌≡◌, ◌&&◌, cond, OnOk, IfOk};
ghost use Rattle.std.specs.List.{list_any};
ghost use Rattle.osm_select.specs.Front.{StartWithNodes, is_node};
ghost use Rattle.osm_select.specs.Held.{completes, has_ref, held_sets, is_drawn, least_relations};
ghost use Rattle.osm_select.specs.IdSets.{among, either, no_ids, with_id};
ghost use Rattle.osm_select.specs.Kept.{sets_of};
ghost use Rattle.osm_select.specs.Links.{is_relation_kind, is_relation_of, linked, names_relation, with_link, with_links};
ghost use Rattle.osm_select.specs.Parts.{around, has_part, ids_where, is_relation, lies_inside, nodes_inside, touches};

use crate::ids::Ids;
use crate::keys::Keys;
use crate::links::Links;
use crate::passing::is_inside;
use osm_area::Area;
use osm_entity::{Body, Entity, Held, Item, Kind, Member, NoMemory, Sequence};
use std::alloc::Global;

fn add_inside(ids: &mut Ids, area: &Area, item: &Item) -> Result<(), NoMemory>
    ensures { OnOk result (among ids.new ≡ cond (lies_inside area.now item.now.entity.body)
        (with_id item.now.entity.id (among ids.old)) (among ids.old)) }
{
    let entity: &Entity = &item.entity;
    ids.add_if(is_inside(area, &entity.body), entity.id)
}

fn nodes_inside(alloc: Global, area: &Area, items: &Held) -> Result<Ids, NoMemory>
    ensures { IfOk result (λ ids. among ids ≡ nodes_inside area.now items.now) }
{
    let mut ids = Ids::new(alloc);
    for place in 0..items.len() {
        add_inside(&mut ids, area, items.get(place))?;
    }
    Ok(ids)
}

fn touches(nodes: &Ids, body: &Body) -> bool
    ensures { result ≡ touches (among nodes.now) body.now }
{
    match body {
        Body::Node(_) => false,
        Body::Way(refs) => nodes.has_any(refs.as_slice()),
        Body::Relation(_) => false,
    }
}

fn add_touching(ids: &mut Ids, nodes: &Ids, item: &Item) -> Result<(), NoMemory>
    ensures { OnOk result (among ids.new ≡ cond (touches (among nodes.now) item.now.entity.body)
        (with_id item.now.entity.id (among ids.old)) (among ids.old)) }
{
    let entity: &Entity = &item.entity;
    ids.add_if(touches(nodes, &entity.body), entity.id)
}

fn is_node(item: &Item) -> bool
    ensures { result ≡ is_node item.now.entity.body }
{
    let entity: &Entity = &item.entity;
    match &entity.body {
        Body::Node(_) => true,
        Body::Way(_) => false,
        Body::Relation(_) => false,
    }
}

// How many items come before the first that is no node. What no node has isn't looked for in them.
fn count_nodes(items: &Held) -> usize
    ensures { StartWithNodes result items.now }
{
    for place in 0..items.len() {
        if !is_node(items.get(place)) {
            return place;
        }
    }
    items.len()
}

fn touching_ways(alloc: Global, nodes: &Ids, items: &Held, start: usize) -> Result<Ids, NoMemory>
    requires { StartWithNodes start items.now }
    ensures { IfOk result (λ ids. among ids
        ≡ ids_where (λ item. touches (among nodes.now) item.entity.body) items.now) }
{
    let mut ids = Ids::new(alloc);
    for place in start..items.len() {
        add_touching(&mut ids, nodes, items.get(place))?;
    }
    Ok(ids)
}

fn is_touched(keys: &Keys, body: &Body) -> bool
    ensures { result ≡ (is_relation body.now && has_part (sets_of keys.now) body.now) }
{
    match body {
        Body::Node(_) => false,
        Body::Way(_) => false,
        Body::Relation(_) => keys.has_part(body),
    }
}

fn is_relation_kind(kind: Kind) -> bool
    ensures { result ≡ is_relation_kind kind }
{
    match kind {
        Kind::Node => false,
        Kind::Way => false,
        Kind::Relation => true,
    }
}

fn link_member(links: &mut Links, alloc: Global, by: i64, member: &Member) -> Result<(), NoMemory>
    ensures { OnOk result (linked links.new ≡ cond (is_relation_kind member.now.kind)
        (with_link member.now.id by (linked links.old)) (linked links.old)) }
{
    links.add_if(alloc, is_relation_kind(member.kind), member.id, by)
}

fn link_members(
    links: &mut Links,
    alloc: Global,
    by: i64,
    members: &[Member],
) -> Result<(), NoMemory>
    ensures { OnOk result (linked links.new
        ≡ with_links by (λ n. list_any (is_relation_of n) members.now) (linked links.old)) }
{
    for member in members {
        link_member(links, alloc, by, member)?;
    }
    Ok(())
}

fn link_body(links: &mut Links, alloc: Global, by: i64, body: &Body) -> Result<(), NoMemory>
    ensures { OnOk result (linked links.new
        ≡ with_links by (λ n. names_relation n body.now) (linked links.old)) }
{
    match body {
        Body::Node(_) => Ok(()),
        Body::Way(_) => Ok(()),
        Body::Relation(members) => link_members(links, alloc, by, members.as_slice()),
    }
}

fn push_if(queue: &mut Sequence<i64>, test: bool, id: i64) -> Result<(), NoMemory>
    ensures { OnOk result
        (among queue.new ≡ cond test (with_id id (among queue.old)) (among queue.old)) }
{
    if test { queue.push(id) } else { Ok(()) }
}

/// Marks a relation that is touched, and links it with the relations that it names.
fn draw_item(
    alloc: Global,
    keys: &Keys,
    item: &Item,
    marked: &mut Ids,
    queue: &mut Sequence<i64>,
    links: &mut Links,
) -> Result<(), NoMemory>
    ensures marked { OnOk result (among marked.new ≡ cond (is_drawn (sets_of keys.now) item.now)
        (with_id item.now.entity.id (among marked.old)) (among marked.old)) }
    ensures queue { OnOk result (among queue.new ≡ cond (is_drawn (sets_of keys.now) item.now)
        (with_id item.now.entity.id (among queue.old)) (among queue.old)) }
    ensures links { OnOk result (linked links.new ≡ with_links item.now.entity.id
        (λ n. names_relation n item.now.entity.body) (linked links.old)) }
{
    let entity: &Entity = &item.entity;
    let touched = is_touched(keys, &entity.body);
    marked.add_if(touched, entity.id)?;
    push_if(queue, touched, entity.id)?;
    link_body(links, alloc, entity.id, &entity.body)
}

/// Adds the least set of relations to the nodes inside and the ways that touch them.
fn draw(
    alloc: Global,
    area: &Area,
    keys: &mut Keys,
    items: &Held,
    start: usize,
) -> Result<(), NoMemory>
    requires nodes { StartWithNodes start items.now }
    requires around { sets_of keys.old ≡ around area.now items.now no_ids }
    ensures { OnOk result
        (sets_of keys.new ≡ around area.now items.now (least_relations area.now items.now)) }
{
    let mut marked = Ids::new(alloc);
    let mut queue = Sequence::new(alloc);
    let mut links = Links::new(alloc);
    for place in start..items.len() {
        draw_item(
            alloc,
            keys,
            items.get(place),
            &mut marked,
            &mut queue,
            &mut links,
        )?;
    }
    links.follow(&mut marked, &mut queue)?;
    keys.relations = marked;
    Ok(())
}

fn add_refs(nodes: &mut Ids, body: &Body) -> Result<(), NoMemory>
    ensures { OnOk result
        (among nodes.new ≡ either (among nodes.old) (λ id. has_ref id body.now)) }
{
    match body {
        Body::Node(_) => Ok(()),
        Body::Way(refs) => nodes.add_all(refs.as_slice()),
        Body::Relation(_) => Ok(()),
    }
}

fn add_refs_if(nodes: &mut Ids, test: bool, body: &Body) -> Result<(), NoMemory>
    ensures { OnOk result
        (among nodes.new ≡ either (among nodes.old) (λ id. test && has_ref id body.now)) }
{
    if test { add_refs(nodes, body) } else { Ok(()) }
}

fn complete_way(nodes: &mut Ids, ways: &Ids, item: &Item) -> Result<(), NoMemory>
    ensures { OnOk result (among nodes.new
        ≡ either (among nodes.old) (λ id. completes (among ways.now) id item.now)) }
{
    let entity: &Entity = &item.entity;
    add_refs_if(nodes, ways.has(entity.id), &entity.body)
}

/// Adds the nodes of the ways of these ids.
fn complete_ways(nodes: &mut Ids, ways: &Ids, items: &Held, start: usize) -> Result<(), NoMemory>
    requires { StartWithNodes start items.now }
    ensures { OnOk result (among nodes.new
        ≡ either (among nodes.old) (λ id. list_any (completes (among ways.now) id) items.now)) }
{
    for place in start..items.len() {
        complete_way(nodes, ways, items.get(place))?;
    }
    Ok(())
}

fn complete_if(
    complete: bool,
    nodes: &mut Ids,
    ways: &Ids,
    items: &Held,
    start: usize,
) -> Result<(), NoMemory>
    requires { StartWithNodes start items.now }
    ensures { OnOk result (among nodes.new ≡ either (among nodes.old)
        (λ id. complete && list_any (completes (among ways.now) id) items.now)) }
{
    if complete {
        complete_ways(nodes, ways, items, start)
    } else {
        Ok(())
    }
}

/// The ids of the items that are kept.
pub(crate) fn kept_ids(
    alloc: Global,
    area: &Area,
    complete: bool,
    items: &Held,
) -> Result<Keys, NoMemory>
    ensures { IfOk result (λ keys. sets_of keys ≡ held_sets area.now complete items.now) }
{
    let start = count_nodes(items);
    let nodes = nodes_inside(alloc, area, items)?;
    let ways = touching_ways(alloc, &nodes, items, start)?;
    let mut keys = Keys {
        nodes,
        ways,
        relations: Ids::new(alloc),
    };
    draw(alloc, area, &mut keys, items, start)?;
    complete_if(complete, &mut keys.nodes, &keys.ways, items, start)?;
    Ok(keys)
}
