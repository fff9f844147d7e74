// The functions that C and Rust link: each is the function that it calls, under a plain name.
#![tactic(auto)]

ghost use Rattle.std.specs.Prelude.{◌≡◌, cond};
ghost use Rattle.image.specs.Image.{read_number, read_image, long_enough, write_number, write_output, write_report};
ghost use Rattle.strict.specs.Strict as strict;
ghost use Rattle.ue_ip_address.specs.UeIpAddress as ue;
ghost use Rattle.ue_ip_address_image.specs.UeIpAddressImage as ueImage;
ghost use Rattle.f_teid.specs.Fteid as fteid;
ghost use Rattle.f_teid_image.specs.FteidImage as fteidImage;
ghost use Rattle.fseid.specs.Fseid as fseid;
ghost use Rattle.fseid_image.specs.FseidImage as fseidImage;
ghost use Rattle.node_id.specs.NodeId as node;
ghost use Rattle.node_id_image.specs.NodeIdImage as nodeImage;
ghost use Rattle.outer_header_creation.specs.OuterHeaderCreation as ohc;
ghost use Rattle.outer_header_creation_image.specs.OuterHeaderCreationImage as ohcImage;
ghost use Rattle.pfd_contents.specs.PfdContents as pfd;
ghost use Rattle.pfd_contents_image.specs.PfdContentsImage as pfdImage;

// A change of an image's layout, of what a number in it says, or of a function's parameters, gives it another number. Since 2 the
// second value of refusal 4 says how the text was broken.
const LAYOUT_VERSION: u64 = 2;

// 1 for yes and 0 for no.
fn number_of(verdict: bool) -> u64
    ensures { result ≡ cond verdict 1 0 }
{
    verdict as u64
}

#[unsafe(no_mangle)]
pub extern "C" fn yerondatt_layout_version() -> u64
    ensures { result ≡ 2 }
{
    LAYOUT_VERSION
}

// ---- UE IP Address

#[unsafe(no_mangle)]
pub extern "C" fn yerondatt_ue_ip_address_read(payload: &[u8], image: &mut [u8]) -> u64
    ensures value { result ≡ read_number ueImage.size image.old (ue.read payload.now).answer }
    ensures image_after { image.new ≡ read_image ueImage.size image.old (ueImage.image_of (ue.read payload.now)) }
{
    ue_ip_address_image::read(payload, image)
}

#[unsafe(no_mangle)]
pub extern "C" fn yerondatt_ue_ip_address_write(
    image: &[u8],
    out: &mut [u8],
    report: &mut [u8],
) -> u64
    ensures value { result ≡ write_number (long_enough ueImage.size image.now report.old) (ueImage.writes image.now out.old) }
    ensures out_after { out.new ≡ write_output (long_enough ueImage.size image.now report.old) (ueImage.stores image.now out.old) out.old }
    ensures report_after { report.new ≡ write_report (long_enough ueImage.size image.now report.old) report.old (ueImage.writes image.now out.old) }
{
    ue_ip_address_image::write(image, out, report)
}

#[unsafe(no_mangle)]
pub extern "C" fn yerondatt_ue_ip_address_strict(payload: &[u8]) -> u64
    ensures { result ≡ cond (strict.ue_ip_address payload.now) 1 0 }
{
    number_of(strict::ue_ip_address(payload))
}

// ---- F-TEID

#[unsafe(no_mangle)]
pub extern "C" fn yerondatt_f_teid_read(payload: &[u8], image: &mut [u8]) -> u64
    ensures value { result ≡ read_number fteidImage.size image.old (fteid.read payload.now).answer }
    ensures image_after { image.new ≡ read_image fteidImage.size image.old (fteidImage.image_of (fteid.read payload.now)) }
{
    f_teid_image::read(payload, image)
}

#[unsafe(no_mangle)]
pub extern "C" fn yerondatt_f_teid_write(image: &[u8], out: &mut [u8], report: &mut [u8]) -> u64
    ensures value { result ≡ write_number (long_enough fteidImage.size image.now report.old) (fteidImage.writes image.now out.old) }
    ensures out_after { out.new ≡ write_output (long_enough fteidImage.size image.now report.old) (fteidImage.stores image.now out.old) out.old }
    ensures report_after { report.new ≡ write_report (long_enough fteidImage.size image.now report.old) report.old (fteidImage.writes image.now out.old) }
{
    f_teid_image::write(image, out, report)
}

#[unsafe(no_mangle)]
pub extern "C" fn yerondatt_f_teid_strict(payload: &[u8]) -> u64
    ensures { result ≡ cond (strict.f_teid payload.now) 1 0 }
{
    number_of(strict::f_teid(payload))
}

// ---- F-SEID

#[unsafe(no_mangle)]
pub extern "C" fn yerondatt_fseid_read(payload: &[u8], image: &mut [u8]) -> u64
    ensures value { result ≡ read_number fseidImage.size image.old (fseid.read payload.now).answer }
    ensures image_after { image.new ≡ read_image fseidImage.size image.old (fseidImage.image_of (fseid.read payload.now)) }
{
    fseid_image::read(payload, image)
}

#[unsafe(no_mangle)]
pub extern "C" fn yerondatt_fseid_write(image: &[u8], out: &mut [u8], report: &mut [u8]) -> u64
    ensures value { result ≡ write_number (long_enough fseidImage.size image.now report.old) (fseidImage.writes image.now out.old) }
    ensures out_after { out.new ≡ write_output (long_enough fseidImage.size image.now report.old) (fseidImage.stores image.now out.old) out.old }
    ensures report_after { report.new ≡ write_report (long_enough fseidImage.size image.now report.old) report.old (fseidImage.writes image.now out.old) }
{
    fseid_image::write(image, out, report)
}

#[unsafe(no_mangle)]
pub extern "C" fn yerondatt_fseid_strict(payload: &[u8]) -> u64
    ensures { result ≡ cond (strict.f_seid payload.now) 1 0 }
{
    number_of(strict::fseid(payload))
}

// ---- Node ID

#[unsafe(no_mangle)]
pub extern "C" fn yerondatt_node_id_read(payload: &[u8], image: &mut [u8]) -> u64
    ensures value { result ≡ read_number nodeImage.size image.old (node.read payload.now).answer }
    ensures image_after { image.new ≡ read_image nodeImage.size image.old (nodeImage.image_of (node.read payload.now)) }
{
    node_id_image::read(payload, image)
}

#[unsafe(no_mangle)]
pub extern "C" fn yerondatt_node_id_write(
    image: &[u8],
    texts: &[u8],
    out: &mut [u8],
    report: &mut [u8],
) -> u64
    ensures value { result ≡ write_number (long_enough nodeImage.size image.now report.old) (nodeImage.writes image.now texts.now out.old) }
    ensures out_after { out.new ≡ write_output (long_enough nodeImage.size image.now report.old) (nodeImage.stores image.now texts.now out.old) out.old }
    ensures report_after { report.new ≡ write_report (long_enough nodeImage.size image.now report.old) report.old (nodeImage.writes image.now texts.now out.old) }
{
    node_id_image::write(image, texts, out, report)
}

#[unsafe(no_mangle)]
pub extern "C" fn yerondatt_node_id_strict(payload: &[u8]) -> u64
    ensures { result ≡ cond (strict.node_id payload.now) 1 0 }
{
    number_of(strict::node_id(payload))
}

// ---- Outer Header Creation

#[unsafe(no_mangle)]
pub extern "C" fn yerondatt_outer_header_creation_read(payload: &[u8], image: &mut [u8]) -> u64
    ensures value { result ≡ read_number ohcImage.size image.old (ohc.read payload.now).answer }
    ensures image_after { image.new ≡ read_image ohcImage.size image.old (ohcImage.image_of (ohc.read payload.now)) }
{
    outer_header_creation_image::read(payload, image)
}

#[unsafe(no_mangle)]
pub extern "C" fn yerondatt_outer_header_creation_write(
    image: &[u8],
    out: &mut [u8],
    report: &mut [u8],
) -> u64
    ensures value { result ≡ write_number (long_enough ohcImage.size image.now report.old) (ohcImage.writes image.now out.old) }
    ensures out_after { out.new ≡ write_output (long_enough ohcImage.size image.now report.old) (ohcImage.stores image.now out.old) out.old }
    ensures report_after { report.new ≡ write_report (long_enough ohcImage.size image.now report.old) report.old (ohcImage.writes image.now out.old) }
{
    outer_header_creation_image::write(image, out, report)
}

#[unsafe(no_mangle)]
pub extern "C" fn yerondatt_outer_header_creation_strict(payload: &[u8]) -> u64
    ensures { result ≡ cond (strict.outer_header_creation payload.now) 1 0 }
{
    number_of(strict::outer_header_creation(payload))
}

// ---- PFD Contents

#[unsafe(no_mangle)]
pub extern "C" fn yerondatt_pfd_contents_read(payload: &[u8], image: &mut [u8]) -> u64
    ensures value { result ≡ read_number pfdImage.size image.old (pfd.read payload.now).answer }
    ensures image_after { image.new ≡ read_image pfdImage.size image.old (pfdImage.image_of (pfd.read payload.now)) }
{
    pfd_contents_image::read(payload, image)
}

#[unsafe(no_mangle)]
pub extern "C" fn yerondatt_pfd_contents_write(
    image: &[u8],
    texts: &[u8],
    out: &mut [u8],
    report: &mut [u8],
) -> u64
    ensures value { result ≡ write_number (long_enough pfdImage.size image.now report.old) (pfdImage.writes image.now texts.now out.old) }
    ensures out_after { out.new ≡ write_output (long_enough pfdImage.size image.now report.old) (pfdImage.stores image.now texts.now out.old) out.old }
    ensures report_after { report.new ≡ write_report (long_enough pfdImage.size image.now report.old) report.old (pfdImage.writes image.now texts.now out.old) }
{
    pfd_contents_image::write(image, texts, out, report)
}

#[unsafe(no_mangle)]
pub extern "C" fn yerondatt_pfd_contents_strict(payload: &[u8]) -> u64
    ensures { result ≡ cond (strict.pfd_contents payload.now) 1 0 }
{
    number_of(strict::pfd_contents(payload))
}
