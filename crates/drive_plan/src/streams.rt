ghost use Rattle.std.specs.Prelude.{◌≡◌, ◌++◌, OnOk, OnErr};
ghost use Rattle.drive_plan.specs.Streams.{client_byte_at, server_byte_at, head_text};

use std::alloc::AllocError;

/// Byte `j` of what a client writes behind its request head, both counted from 0. It takes no memory.
pub fn client_byte(client: u32, j: u32) -> u8
    ensures { result ≡ client_byte_at client j }
{
    ((client as u64 + j as u64) % 251) as u8
}

/// Byte `j` of what a server writes, counted from 0. It takes no memory.
pub fn server_byte(j: u32) -> u8
    ensures { result ≡ server_byte_at j }
{
    (j % 241) as u8
}

/// Appends a client's request head (RFC 9112, 2.1). The one error is want of memory, and then `out` is as it was.
pub fn head_of(client: u32, out: &mut Vec<u8>) -> Result<(), AllocError>
    ensures ok { OnOk result (out.new.items ≡ out.old.items ++ head_text client) }
    ensures err { OnErr result (out.new.items ≡ out.old.items) }
{
    let text = format!(in *out.allocator(); "GET /{client} HTTP/1.1\r\nHost: d.example\r\n\r\n")?;
    out.extend_from_slice(text.as_bytes())?;
    Ok(())
}
