// The Number and Type that a version's text gives to a reserved ID.
ghost use Rattle.std.specs.Prelude.{◌≡◌, ◌++◌, length};
ghost use Rattle.values.specs.Value.{meaning};
ghost use Rattle.rules.specs.Reserved.{info_rows, info_rows4_3, info_rows4_4, format_rows, format_rows4_3, format_rows4_4, format_rows4_5, look_row, reserved};
ghost use Rattle.records.specs.Formats.{version_of};
ghost use Rattle.records.specs.Keys.{kind_by};
ghost use Rattle.records.specs.Definitions.{definition_means, outline, number_coded, type_coded, rows_in};

use crate::file_format::FileFormat;
use crate::key::MapKey;
use crate::number::{Number, ValueType};
use values::bytes;

pub type Definition = Option<(Number, ValueType)>;

fn number_coded(a: u8, b: u8) -> Number
    ensures { result ≡ number_coded a b }
{
    match a {
        b'0'..=b'9' => Number::Count((a - b'0') as u64),
        _ => Number::Letter(a, b),
    }
}

fn type_coded(t: u8) -> ValueType
    ensures { result ≡ type_coded t }
{
    match t {
        b'I' => ValueType::Integer,
        b'F' => ValueType::Float,
        b'f' => ValueType::Flag,
        _ => ValueType::String,
    }
}

// The row of an ID among rows whose IDs are as long: the ID, two bytes for the Number, one for the Type.
fn row_in(rows: &[u8], id: &[u8]) -> Definition
    ensures { definition_means result ≡ outline (look_row id.now (rows_in (length rows.now) (length id.now) rows.now)) }
{
    let n = id.len();
    for row in rows.chunks_exact(n + 3) {
        if bytes::same(&row[..n], id) {
            return Some((number_coded(row[n], row[n + 1]), type_coded(row[n + 2])));
        }
    }
    None
}

// The rows of INFO in 4.3, by the ID's length.
fn info_4_3(id: &[u8]) -> Definition
    ensures { definition_means result ≡ outline (look_row id.now (info_rows ++ info_rows4_3)) }
{
    let n = id.len();
    if n == 2 {
        return row_in(
            b"ACA IAFA FADR IAA1 SAN1 IDP1 INS1 IBQ1 FMQ1 FSB4 IDB0 fH20 fH30 fCN1 I",
            id,
        );
    }
    if n == 3 {
        return row_in(b"ADFR IADRR IEND1 IMQ01 I", id);
    }
    if n == 4 {
        return row_in(b"CICN2 I", id);
    }
    if n == 5 {
        return row_in(
            b"CIGARA S1000G0 fNOVEL0 fSVLEN. IDPADJ. ICNADJ. ICIPOS2 ICIEND2 ICILEN2 IDGVID1 SPARID1 SEVENT1 S",
            id,
        );
    }
    if n == 6 {
        return row_in(
            b"SVTYPE1 SHOMLEN. IHOMSEQ. SBKPTID. SMATEID. SMEINFO4 S",
            id,
        );
    }
    if n == 7 {
        return row_in(b"SOMATIC0 fCICNADJ. IMETRANS4 SDBVARID1 SDBRIPID1 S", id);
    }
    if n == 9 {
        return row_in(b"VALIDATED0 fIMPRECISE0 f", id);
    }
    None
}

// The rows of INFO from 4.4 on, by the ID's length.
fn info_4_4(id: &[u8]) -> Definition
    ensures { definition_means result ≡ outline (look_row id.now (info_rows ++ info_rows4_4)) }
{
    let n = id.len();
    if n == 2 {
        return row_in(
            b"ACA IAFA FADR IAA1 SAN1 IDP1 INS1 IBQ1 FMQ1 FSB4 IDB0 fH20 fH30 fRNA IRB. ICNA F",
            id,
        );
    }
    if n == 3 {
        return row_in(b"ADFR IADRR IEND1 IMQ01 IRUL. IRUB. IRUS. SRUC. F", id);
    }
    if n == 4 {
        return row_in(b"CIRB. ICICN. F", id);
    }
    if n == 5 {
        return row_in(
            b"CIGARA S1000G0 fNOVEL0 fSVLENA ICIPOS. ICIEND. ICILEN. IDGVIDA SPARIDA SEVENTA SCIRUC. F",
            id,
        );
    }
    if n == 6 {
        return row_in(
            b"SVTYPE1 SHOMLENA IHOMSEQA SBKPTIDA SMATEIDA SMEINFO. S",
            id,
        );
    }
    if n == 7 {
        return row_in(b"SOMATIC0 fDBVARIDA SDBRIPIDA SSVCLAIMA SMETRANS. S", id);
    }
    if n == 9 {
        return row_in(b"VALIDATED0 fIMPRECISE0 fEVENTTYPEA S", id);
    }
    None
}

// The rows of FORMAT in 4.3, by the ID's length.
fn format_4_3(id: &[u8]) -> Definition
    ensures { definition_means result ≡ outline (look_row id.now (format_rows ++ format_rows4_3)) }
{
    let n = id.len();
    if n == 2 {
        return row_in(
            b"ADR IECA IDP1 IGQ1 IMQ1 IPQ1 IPS1 IFT1 SGT1 SHQ2 IGLG FGPG FPLG IPPG INQ1 ICN1 I",
            id,
        );
    }
    if n == 3 {
        return row_in(b"ADFR IADRR ICNQ1 FCNLG FCNPG FHAP1 I", id);
    }
    if n == 4 {
        return row_in(b"AHAP1 I", id);
    }
    None
}

// The rows of FORMAT in 4.4, by the ID's length.
fn format_4_4(id: &[u8]) -> Definition
    ensures { definition_means result ≡ outline (look_row id.now (format_rows ++ format_rows4_4)) }
{
    let n = id.len();
    if n == 2 {
        return row_in(
            b"ADR IECA IDP1 IGQ1 IMQ1 IPQ1 IPS1 IFT1 SGT1 SHQ2 IGLG FGPG FPLG IPPG INQ1 ICN1 F",
            id,
        );
    }
    if n == 3 {
        return row_in(
            b"ADFR IADRR ICNQ1 FCNLG FCNPG FHAP1 IPSLP SPSOP IPSQP I",
            id,
        );
    }
    if n == 4 {
        return row_in(b"AHAP1 ICICN2 F", id);
    }
    None
}

// The rows of FORMAT from 4.5 on, by the ID's length.
fn format_4_5(id: &[u8]) -> Definition
    ensures { definition_means result ≡ outline (look_row id.now (format_rows ++ format_rows4_4 ++ format_rows4_5)) }
{
    let n = id.len();
    if n == 2 {
        return row_in(
            b"ADR IECA IDP1 IGQ1 IMQ1 IPQ1 IPS1 IFT1 SGT1 SHQ2 IGLG FGPG FPLG IPPG INQ1 ICN1 F",
            id,
        );
    }
    if n == 3 {
        return row_in(
            b"ADFR IADRR ICNQ1 FCNLG FCNPG FHAP1 IPSLP SPSOP IPSQP ILEN1 ILAA. ILADLRILECLAILGLLGFLGPLGFLPLLGILPPLGI",
            id,
        );
    }
    if n == 4 {
        return row_in(b"AHAP1 ICICN2 FLADFLRILADRLRI", id);
    }
    None
}

// A row is looked for by the bytes as they stand: no reserved ID has a byte that could be escaped.
pub fn definition_of(version: FileFormat, key: MapKey, id: &[u8], quoted: bool) -> Definition
    ensures { definition_means result ≡ outline (reserved (version_of version) (kind_by key) (meaning quoted id.now)) }
{
    if version.lt(FileFormat::V4_3) {
        return None;
    }
    if key.is_info() {
        if version.lt(FileFormat::V4_4) {
            return info_4_3(id);
        }
        return info_4_4(id);
    }
    if !key.is_format() {
        return None;
    }
    if version.lt(FileFormat::V4_4) {
        return format_4_3(id);
    }
    if version.lt(FileFormat::V4_5) {
        return format_4_4(id);
    }
    format_4_5(id)
}
