//! The checks in their order.

ghost use Rattle.std.specs.Prelude.{◌≡◌, IfOk};
ghost use Rattle.std.specs.Result.{is_ok};
ghost use Rattle.io_model.specs.Source.{count_of, When};
ghost use Rattle.admit.specs.Answers.{Counted, Gives, Proper};
ghost use Rattle.admit.specs.Given.{SparesPayloads, ReadsPayloads};
ghost use Rattle.admit.specs.Admit.{head_plan_of, plan_of};
ghost use Rattle.admit.specs.IsOf.{IsOf};

use crate::admitted::Admitted;
use crate::fields::{check_wants, read_fields};
use crate::lines::read_lines;
use crate::reading::{read_file, read_texts, zeros};
use crate::refusal::{AdmitFault, Refusal};
use crate::scripts::read_scripts;
use crate::sums::{PayloadFault, check_rest, sum_payloads};
use crate::table::{check_table, read_table};
use io_model::Source;
use provides_map::Provides;
use script_names::Site;
use std::alloc::Global;

/// Reads a tree but for its payloads, and tries the causes of [`Refusal`] in their order, but for
/// the payloads' sums: the first that holds is the answer, and else what the tree says. `Source`
/// comes only where a call of the source failed, `Memory` where an allocation was refused.
#[tactic(auto, unfolding(crate::specs::Admit::head_plan_of, crate::specs::Table::too_many))]
pub fn admit_head<S: Source>(
    alloc: Global,
    source: &mut S,
    site: &Site,
    current: &Provides,
) -> Result<Admitted, AdmitFault>
    ensures same { S.content source.new ≡ S.content source.old }
    ensures plan { S.plan source.new ≡ S.plan source.old }
    ensures payloads { When (S.content source.old) (λ t. SparesPayloads t (S.given source.old) (S.given source.new)) }
    ensures counts { Counted (S.faults source.old) result (S.faults source.new) }
    ensures proper { Proper (count_of (S.content source.old)) result }
    ensures of_source { IfOk result (λ admitted. IsOf (S.content source.old) admitted) }
    ensures told { When (S.content source.old) (λ t. Gives result (head_plan_of t site.now.device_type current.now)) }
{
    let count = source.files();
    if 256 < count {
        return Err(AdmitFault::Refused(Refusal::TooManyFiles(count)));
    }
    let heads = read_table(alloc, source)?;
    let heads = heads.as_slice();
    let places = check_table(heads)?;
    let bytes = read_file(alloc, source, heads, places.manifest)?;
    let text = bytes.as_slice();
    let listing = read_lines(alloc, heads, text)?;
    let kept = read_texts(alloc, source, heads, places)?;
    let lines = listing.manifest.lines();
    let numbers = listing.numbers.as_slice();
    check_rest(alloc, source, lines, numbers, &kept)?;
    let fields = read_fields(alloc, heads, &kept)?;
    let scripts = read_scripts(alloc, heads)?;
    check_wants(&fields, &site.device_type, current)?;
    Ok(Admitted {
        manifest: listing.manifest,
        numbers: listing.numbers,
        header: fields.header,
        infos: fields.infos,
        scripts,
    })
}

/// Reads a tree and tries the causes of [`Refusal`] in their order: the first that holds is the
/// answer, and else what the tree says. `Source` comes only where a call of the source failed,
/// `Memory` where an allocation was refused.
#[tactic(auto, unfolding(crate::specs::Admit::plan_of))]
pub fn admit<S: Source>(
    alloc: Global,
    source: &mut S,
    site: &Site,
    current: &Provides,
) -> Result<Admitted, AdmitFault>
    ensures same { S.content source.new ≡ S.content source.old }
    ensures plan { S.plan source.new ≡ S.plan source.old }
    ensures payloads { When (S.content source.old) (λ t. ReadsPayloads (is_ok result) t (S.given source.old) (S.given source.new)) }
    ensures counts { Counted (S.faults source.old) result (S.faults source.new) }
    ensures proper { Proper (count_of (S.content source.old)) result }
    ensures of_source { IfOk result (λ admitted. IsOf (S.content source.old) admitted) }
    ensures told { When (S.content source.old) (λ t. Gives result (plan_of t site.now.device_type current.now)) }
{
    let mut buffer = match zeros(alloc, 65_536) {
        Ok(buffer) => buffer,
        Err(_) => return Err(AdmitFault::Memory),
    };
    let admitted = match admit_head(alloc, source, site, current) {
        Ok(admitted) => admitted,
        Err(fault) => return Err(fault),
    };
    match sum_payloads(source, &admitted, buffer.as_mut_slice()) {
        Ok(()) => Ok(admitted),
        Err(PayloadFault::Source) => Err(AdmitFault::Source),
        Err(PayloadFault::Differs(differs)) => {
            Err(AdmitFault::Refused(Refusal::PayloadDiffers(differs)))
        }
    }
}
