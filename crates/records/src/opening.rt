// From a record to the model that it describes, or to its one fault.
ghost use Rattle.models.specs.Answers.{Makes};
ghost use Rattle.records.specs.Opening.{uniform_fault, peak_fault, IsUniform, IsPeak, Opens, OpensChannel};

use crate::fault::{RecordFault, Refusal};
use crate::layout::{Fields, PeakFields, UniformFields, layout};
use distributions::peak::Peak;
use models::fault::ModelFault;
use quantize::quantizer::{LeakilyQuantizedDistribution, LeakyQuantizer};
use uniform::model::UniformModel;

#[derive(Drop)]
pub enum RecordModel {
    Uniform(UniformModel<u32>),
    Peak(LeakilyQuantizedDistribution<i32, u32, Peak>),
}

// A range below zero has no symbols.
fn open_uniform(fields: UniformFields) -> Result<UniformModel<u32>, ModelFault>
    ensures { Makes (uniform_fault fields) (IsUniform fields) result }
{
    UniformModel::new(fields.precision, fields.range.max(0) as usize)
}

// The support is checked first, then the shape of the distribution.
pub fn open_peak(
    fields: PeakFields,
) -> Result<LeakilyQuantizedDistribution<i32, u32, Peak>, RecordFault>
    ensures { Makes (peak_fault fields) (IsPeak fields) result }
{
    let quantizer = LeakyQuantizer::new(fields.min, fields.max, fields.precision)?;
    let peak = Peak::new(fields.centre, fields.scale)?;
    Ok(quantizer.quantize(peak))
}

// The form of the record is checked first, then the model that it describes.
pub fn open_record(bytes: &[u8]) -> Result<RecordModel, RecordFault>
    ensures { Opens bytes.now result }
{
    Ok(match layout(bytes)? {
        Fields::Uniform(fields) => RecordModel::Uniform(open_uniform(fields)?),
        Fields::Peak(fields) => RecordModel::Peak(open_peak(fields)?),
    })
}

// A fault gets the number of its channel.
pub fn open_channel(channel: u32, bytes: &[u8]) -> Result<RecordModel, Refusal>
    ensures { OpensChannel channel bytes.now result }
{
    open_record(bytes).map_err(|fault| Refusal { channel, fault })
}
