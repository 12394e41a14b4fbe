// Reading a hello (document 01). What the readers answer crosses the face as a refusal beside the fields.
ghost use Rattle.std.specs.Prelude.{◌≡◌};
ghost use Rattle.hello.specs.Fields.{read_client, read_server};
ghost use Rattle.hello.specs.Places.{client_answer, server_answer};
ghost use Rattle.gateway.specs.Hellos.{client_reading, server_reading};

use hello::{ClientHello, ServerHello, read_client_hello, read_server_hello};
use refusal::{Refusal, refuse};

#[repr(C)]
#[derive(Clone, Copy)]
pub struct ClientReading {
    pub refusal: Refusal,
    // zeros where refused
    pub hello: ClientHello,
}

#[repr(C)]
#[derive(Clone, Copy)]
pub struct ServerReading {
    pub refusal: Refusal,
    // zeros where refused
    pub hello: ServerHello,
}

#[unsafe(no_mangle)]
pub extern "C" fn axle_read_client_hello(message: &[u8]) -> ClientReading
    ensures { result ≡ client_reading (client_answer (read_client message.now)) }
{
    match read_client_hello(message) {
        Ok(hello) => ClientReading {
            refusal: refuse(0),
            hello,
        },
        Err(reason) => ClientReading {
            refusal: Refusal::from(reason),
            hello: ClientHello::default(),
        },
    }
}

#[unsafe(no_mangle)]
pub extern "C" fn axle_read_server_hello(message: &[u8]) -> ServerReading
    ensures { result ≡ server_reading (server_answer (read_server message.now)) }
{
    match read_server_hello(message) {
        Ok(hello) => ServerReading {
            refusal: refuse(0),
            hello,
        },
        Err(reason) => ServerReading {
            refusal: Refusal::from(reason),
            hello: ServerHello::default(),
        },
    }
}
