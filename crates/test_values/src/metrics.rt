//! Worked distances of each metric.
ghost use Rattle.std.specs.Prelude.{◌≡◌, ◌<◌};

use mi_base::{Steps, Vector};
use mi_metric::{Hamming, L1, Max, Metric};
use std::marker::Brand;
use std::sync::ledger::{Blank, Ledger};
use std::test::Fail;

fn counted<M: Metric, L: Ledger>(metric: &M, blank: Blank, a: &Vector, b: &Vector) -> Option<u32>
    requires name { blank.name ≡ L.name }
    requires parts { blank.parts ≡ L.parts }
    requires some { 0 < blank.parts }
{
    if !metric.fits(a) || !metric.fits(b) {
        return None;
    }
    let mut steps = Steps::<L>::new(blank);
    Some(metric.distance(a, b, &mut steps))
}

/// The distance, where both vectors fit.
pub fn measured<M: Metric>(metric: &M, a: &Vector, b: &Vector) -> Option<u32> {
    counted::<M, Brand>(metric, Blank::new(1), a, b)
}

#[test]
fn each_metric_measures_what_fits(rt: HostRuntime) -> Result<(), Fail> {
    let a = Vector::new(&[1, -2, 1_000_000])?;
    let b = Vector::new(&[4, -2, -1_000_000])?;
    let short = Vector::new(&[7, 7])?;
    let (l1, max, hamming) = (L1::new(3), Max::new(3), Hamming::new(3));
    assert_eq!(rt; measured(&l1, &a, &b), Some(2_000_003));
    assert_eq!(rt; measured(&max, &a, &b), Some(2_000_000));
    assert_eq!(rt; measured(&hamming, &a, &b), Some(2));
    assert_eq!(rt; measured(&l1, &a, &short), None);
    assert_eq!(rt; measured(&max, &short, &b), None);
    assert_eq!(rt; measured(&hamming, &short, &short), None);
    Ok(())
}
