//! What is answered to who asks what runs.

use crate::status::status_text::write_status;
use bytes::Bytes;
use http::{HeaderValue, Method, Request, StatusCode, Uri, header};
use http_server::{Response, Service};
use hub::Hub;
use shared_log::LogName;
use slots::SlotName;
use std::alloc::AllocError;
use std::io;
use std::io::Write;
use std::sync::Wait;
use std::time::Clock;

/// What a request asks for.
#[derive(Clone, Copy)]
enum PageRequest {
    Page,
    OtherPage,
    OtherMethod,
}

impl PageRequest {
    fn of(method: &Method, path: &str) -> Self {
        if *method != Method::GET && *method != Method::HEAD {
            return PageRequest::OtherMethod;
        }
        match path {
            "/" | "/metrics" => PageRequest::Page,
            _ => PageRequest::OtherPage,
        }
    }

    fn status(self) -> StatusCode {
        match self {
            PageRequest::Page => StatusCode::OK,
            PageRequest::OtherPage => StatusCode::NOT_FOUND,
            PageRequest::OtherMethod => StatusCode::METHOD_NOT_ALLOWED,
        }
    }
}

fn path_of(uri: &Uri) -> &str {
    match uri.path_and_query() {
        Some(path) => path.path(),
        None => "",
    }
}

/// Answers each request with the page, and closes its connection then.
#[derive(Drop)]
pub(crate) struct StatusService<'a, L: LogName + SlotName, R: Wait + Clock> {
    pub rt: &'a R,
    pub hub: &'a Hub<L>,
}

impl<'a, L: LogName + SlotName, R: Wait + Clock> Service for StatusService<'a, L, R> {
    // What runs changes beside it, so of an answer nothing is told.
    ghost answers = { λ old request response new. Unit {0} };

    fn call(
        &mut self,
        request: &Request<Bytes>,
        response: &mut Response,
    ) -> Result<(), AllocError> {
        let asked = PageRequest::of(request.method(), path_of(request.uri()));
        response.status = asked.status();
        let text = HeaderValue::from_static("text/plain; version=0.0.4");
        response.add_header(header::CONTENT_TYPE, text)?;
        response.add_header(header::CONNECTION, HeaderValue::from_static("close"))?;
        if let PageRequest::OtherMethod = asked {
            response.add_header(header::ALLOW, HeaderValue::from_static("GET, HEAD"))?;
        }
        response.body.push(self.page(asked)?)
    }
}

impl<'a, L: LogName + SlotName, R: Wait + Clock> StatusService<'a, L, R> {
    fn page(&self, asked: PageRequest) -> Result<Bytes, AllocError> {
        let mut page = Vec::new(self.hub.alloc());
        if self.write(asked, &mut page).is_err() {
            return Err(AllocError);
        }
        Ok(Bytes::from_vec(page)?)
    }

    fn write(&self, asked: PageRequest, page: &mut Vec<u8>) -> io::Result<()> {
        match asked {
            PageRequest::Page => write_status(&self.hub.status(self.rt)?, page),
            PageRequest::OtherPage | PageRequest::OtherMethod => {
                writeln!(page, "what runs is told at /metrics")
            }
        }
    }
}
