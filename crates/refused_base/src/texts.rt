// Calls on texts.
ghost use Rattle.std.specs.Prelude.{◌≡◌, ◌<◌, length, IfOk, Ok};
ghost use Rattle.jv_base.specs.Outcome.{IsDue};
ghost use Rattle.conf_words.specs.Reading.{words_of_bytes};
ghost use Rattle.mapping_file.specs.MapReading.{read_mapping};
ghost use Rattle.mapping_file.specs.Mappings.{Reading};
ghost use Rattle.mapping_file.specs.declared.mapping.Mapping.{Mapping};
ghost use Rattle.retrace_core.specs.Retraced.{retraced};
ghost use Rattle.witness_file.specs.WitnessReading.{read_witness};
ghost use Rattle.witness_file.specs.Witnesses.{Reading as ReadingWitness};
ghost use Rattle.witness_file.specs.declared.witness.Witness.{Witness};

use conf_words::{Word, WordFault};
use jv_base::{Bytes, Items, M, Or};
use mapping_file::{MapFault, Mapping};
use std::alloc::Global;
use witness_file::{WitFault, Witness};

/// `words` of `conf_words`.
pub fn words(alloc: Global, bytes: &[u8]) -> Result<Items<Word>, Or<WordFault>>
    requires { length bytes.now < 4294967295 }
    ensures { IsDue result (words_of_bytes bytes.now) }
{
    conf_words::words(alloc, bytes)
}

/// `read_mapping` of `mapping_file`.
pub fn read_mapping(alloc: Global, bytes: &[u8]) -> Result<Mapping, Or<MapFault>>
    requires { length bytes.now < 4294967295 }
    ensures found { IfOk result (Reading bytes.now) }
    ensures only { (map : Mapping) → Reading bytes.now map → IsDue result (Ok map) }
    ensures exact { IsDue result (read_mapping bytes.now) }
{
    mapping_file::read_mapping(alloc, bytes)
}

/// `retrace` of `retrace_core`.
pub fn retrace(alloc: Global, map: &Mapping, trace: &[u8]) -> M<Bytes>
    ensures { IfOk result (λ text. text ≡ retraced map.now trace.now) }
{
    retrace_core::retrace(alloc, map, trace)
}

/// `read_witness` of `witness_file`.
pub fn read_witness(alloc: Global, bytes: &[u8]) -> Result<Witness, Or<WitFault>>
    requires { length bytes.now < 4294967295 }
    ensures found { IfOk result (ReadingWitness bytes.now) }
    ensures only { (w : Witness) → ReadingWitness bytes.now w → IsDue result (Ok w) }
    ensures exact { IsDue result (read_witness bytes.now) }
{
    witness_file::read_witness(alloc, bytes)
}
