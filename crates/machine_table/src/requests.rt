// The requests that came so far.
ghost use Rattle.std.specs.Prelude.{◌≡◌, Some, None, slice_get, MatchResult};
ghost use Rattle.machine_table.specs.Requests.{value_at};

use amh_host::Items;
use py_machine::Request;
use py_values::Val;
use table_text::Stop;

/// The requests of a run, in order.
pub type Requests = Items<Request>;

/// Value K of request R.
pub fn value_at(requests: &Requests, r: u64, k: u64) -> Result<Val, Stop>
    ensures { MatchResult result (λ v. value_at requests.now r k ≡ Some v) (λ _. value_at requests.now r k ≡ None) }
{
    let request = request_at(requests, r)?;
    let vals = request.vals.as_slice();
    if k < vals.len() as u64 {
        Ok(vals[k as usize])
    } else {
        Err(Stop::NoCase)
    }
}

/// The value with this name of request R.
pub fn value_named(requests: &Requests, r: u64, name: &str) -> Result<Val, Stop> {
    let request = request_at(requests, r)?;
    let names = request.names.items();
    for k in 0..names.len() {
        if names[k].as_str() == name {
            return value_at(requests, r, k as u64);
        }
    }
    Err(Stop::NoCase)
}

fn request_at(requests: &Requests, r: u64) -> Result<&Request, Stop>
    ensures { MatchResult result (λ request. slice_get requests.now r ≡ Some request.now) (λ _. slice_get requests.now r ≡ None) }
{
    if r < requests.len() as u64 {
        Ok(requests.get(r as usize))
    } else {
        Err(Stop::NoCase)
    }
}
