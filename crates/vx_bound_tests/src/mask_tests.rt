//! Which zones are left out at the bound, and which masks are kept.

ghost use Rattle.std.specs.Prelude.{◌≡◌, IsTrue};
ghost use Rattle.vx_base.specs.ColumnCalls.{IsBool};
ghost use Rattle.vx_base.specs.Views.{data_type};
ghost use Rattle.vx_bound.specs.Bounds.{IsSeatOf};

use std::process::Abort;
use vx_base::{Column, DType, Field, Fields, IntKind, Mask, Nullability, Text, Value, Values};
use vx_bound::{BoundSeat, BoundTable, Bounded, PrunedZones};
use vx_expr::{Expr, Statistic, Statistics, bind};
use vx_zones::{ZoneProof, ZoneTable, falsify};

fn is_bool(dtype: &DType) -> bool
    ensures { IsTrue result → IsBool (data_type dtype.now) }
{
    matches!(dtype, DType::Bool(_))
}

/// The proof of the predicate that the root is at most the bound.
fn proof_over(rt: &(impl AllocGlobal + Abort), dtype: &DType) -> ZoneProof
    ensures { result.root ≡ data_type dtype.now }
{
    let at_most = Expr::at_most_bound(rt.alloc(), Expr::Root).expect(rt, "an expression");
    let predicate = bind(rt.alloc(), &at_most, dtype).expect(rt, "a predicate");
    assert!(rt; is_bool(predicate.dtype()));
    match falsify(rt.alloc(), &predicate).expect(rt, "memory") {
        Some(proof) => proof,
        None => panic!(rt; "no proof"),
    }
}

/// The struct of a zone whose least value is told, or isn't.
fn told(rt: &(impl AllocGlobal + Abort), least: Option<u64>) -> Value {
    let least = match least {
        Some(least) => Value::Int(i128::from(least)),
        None => Value::Null,
    };
    Value::Struct(Values::from_vec(vec![in rt.alloc(); least].expect(rt, "a zone")))
}

/// Zones of one row each, of which the least values are told.
fn table_over(rt: &(impl AllocGlobal + Abort), dtype: &DType, minima: &[Option<u64>]) -> ZoneTable
    ensures { result.dtype ≡ data_type dtype.now }
{
    let name = Text::from_string(String::from_str(rt.alloc(), "min").expect(rt, "a name"));
    let least = Field {
        name,
        dtype: dtype.as_nullable(rt.alloc()).expect(rt, "a dtype"),
    };
    let fields = Fields::from_vec(vec![in rt.alloc(); least].expect(rt, "fields"));
    let mut zones = Vec::new(rt.alloc());
    for least in minima {
        zones.push(told(rt, *least)).expect(rt, "a zone");
    }
    let count = zones.len() as u64;
    let shape = DType::Struct(fields, Nullability::NonNullable);
    let zones = Column::try_of(rt.alloc(), shape, zones).expect(rt, "a column");
    let stats = Statistics::from_vec(vec![in rt.alloc(); Statistic::Min].expect(rt, "statistics"));
    ZoneTable::try_new(rt.alloc(), dtype, &stats, zones, 1, count).expect(rt, "a table")
}

/// Zones with these least values, pruned by the predicate that a value is at most the bound.
fn zones_with(rt: &(impl AllocGlobal + Abort), minima: &[Option<u64>]) -> PrunedZones {
    let dtype = DType::Int(IntKind::U64, Nullability::NonNullable);
    let proof = proof_over(rt, &dtype);
    PrunedZones::new(rt.alloc(), table_over(rt, &dtype, minima), proof)
}

/// Whether the mask has these truth values.
fn is_mask(mask: &Mask, bits: &[bool]) -> bool {
    if mask.len() != bits.len() as u64 {
        return false;
    }
    for zone in 0..bits.len() {
        if mask.value(zone as u64) != bits[zone] {
            return false;
        }
    }
    true
}

/// Asserts which zones are pruned, and at which key.
fn assert_pruned(
    rt: &(impl AllocGlobal + Abort),
    zones: &mut PrunedZones,
    table: &BoundTable,
    seat: &mut BoundSeat,
    key: u64,
    bits: &[bool],
)
    requires { IsSeatOf table.now seat.old }
    ensures { IsSeatOf table.now seat.new }
{
    let made = zones.mask(table, seat).expect(rt, "a mask");
    assert!(rt; made.key == key);
    assert!(rt; is_mask(&made.mask, bits), "at {key}");
}

#[test]
fn zones_above_the_bound_are_pruned(rt: HostRuntime) {
    let Bounded { table, mut seat } = BoundTable::start(rt.alloc(), 100).expect(&rt, "memory");
    let mut other = table.split(&mut seat);
    assert!(rt; table.offer(&mut seat, 40) == 40);
    assert!(rt; table.offer(&mut other, 70) == 40);
    let mut pruned = zones_with(&rt, &[Some(0), Some(50)]);
    let mut copied = pruned.copy(rt.alloc()).expect(&rt, "a copy");
    assert_pruned(&rt, &mut copied, &table, &mut seat, 40, &[false, true]);
    assert_pruned(&rt, &mut pruned, &table, &mut other, 40, &[false, true]);
    table.join(&mut seat, other);
    assert!(rt; table.close(seat) == 40);
}

#[test]
fn a_kept_mask_serves_its_own_key_alone(rt: HostRuntime) {
    let Bounded { table, mut seat } = BoundTable::start(rt.alloc(), 60).expect(&rt, "memory");
    let mut other = table.split(&mut seat);
    let mut pruned = zones_with(&rt, &[Some(0), None, Some(50), Some(61)]);
    let at_60 = [false, false, false, true];
    let at_40 = [false, false, true, true];
    assert_pruned(&rt, &mut pruned, &table, &mut seat, 60, &at_60);
    assert_pruned(&rt, &mut pruned, &table, &mut seat, 60, &at_60);
    assert!(rt; table.offer(&mut other, 40) == 40);
    assert_pruned(&rt, &mut pruned, &table, &mut seat, 40, &at_40);
    assert_pruned(&rt, &mut pruned, &table, &mut other, 40, &at_40);
    let Bounded {
        table: looser,
        seat: mut first,
    } = BoundTable::start(rt.alloc(), 61).expect(&rt, "memory");
    assert_pruned(
        &rt,
        &mut pruned,
        &looser,
        &mut first,
        61,
        &[false, false, false, false],
    );
    assert_pruned(&rt, &mut pruned, &table, &mut seat, 40, &at_40);
}
